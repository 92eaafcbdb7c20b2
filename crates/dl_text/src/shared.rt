ghost use Rattle.std.specs.Prelude.{◌≡◌, [], ◌∷◌, ◌++◌, IfOk, OnOk, OnErr};

use crate::list::TryCopy;
use std::alloc::{AllocError, Global};
use std::marker::Model;
use std::rc::Rc;

/// A list that its copies share, so that a copy takes constant time. What one of them adds is not
/// seen by the others.
#[derive(Debug, Drop)]
pub(crate) struct Shared<T> {
    alloc: Global,
    /// None is the empty list, which takes no memory.
    items: Option<Rc<Vec<T>>>,
}

impl<T> Model for Shared<T> {
    ghost use Rattle.std.specs.Prelude.{List};
    ghost use Rattle.std.specs.Coded.{coded_list};
    ghost use Rattle.dl_text.specs.Shared.{items_of};

    ghost Value = { List T };

    ghost coded = { coded_list T.code };

    ghost view = { λ shared. items_of shared.items };
}

impl<T> Shared<T> {
    /// The empty list.
    pub(crate) fn new(alloc: Global) -> Shared<T>
        ensures { result ≡ [] }
    {
        Shared { alloc, items: None }
    }

    /// The items in order.
    pub(crate) fn as_slice(&self) -> &[T]
        ensures { result.now ≡ self.now }
    {
        match &self.items {
            Some(items) => items.as_slice(),
            None => &[],
        }
    }
}

impl<T: Drop> Shared<T> {
    /// One more owner of the items.
    pub(crate) fn share(&self) -> Result<Shared<T>, AllocError>
        ensures { IfOk result (λ copy. copy ≡ self.now) }
    {
        let items = match &self.items {
            Some(items) => Some(items.clone()?),
            None => None,
        };
        Ok(Shared {
            alloc: self.alloc,
            items,
        })
    }
}

impl Shared<u16> {
    /// The items of one list, and behind them those of another.
    pub(crate) fn joined(alloc: Global, first: &[u16], second: &[u16]) -> Result<Self, AllocError>
        ensures { IfOk result (λ list. list ≡ first.now ++ second.now) }
    {
        let mut items = Vec::with_capacity(alloc, first.len() + second.len())?;
        items.extend_from_slice(first)?;
        items.extend_from_slice(second)?;
        let items = Rc::new(alloc, items)?;
        Ok(Shared {
            alloc,
            items: Some(items),
        })
    }
}

impl<T: TryCopy + Drop> Shared<T> {
    /// Adds an item at the end, for this owner alone. Where there are others, it gets items of its
    /// own first.
    pub(crate) fn push(&mut self, item: T) -> Result<(), AllocError>
        ensures ok { OnOk result (self.new ≡ self.old ++ item ∷ []) }
        ensures err { OnErr result (self.new ≡ self.old) }
    {
        if let Some(items) = &mut self.items {
            if let Some(own) = Rc::get_mut(items) {
                own.push(item)?;
                return Ok(());
            }
        }
        let mut own = copies(self.alloc, self.as_slice())?;
        own.push(item)?;
        self.items = Some(Rc::new(self.alloc, own)?);
        Ok(())
    }
}

/// A copy of each item, in order.
fn copies<T: TryCopy + Drop>(alloc: Global, items: &[T]) -> Result<Vec<T>, AllocError>
    ensures { IfOk result (λ copy. copy.items ≡ items.now) }
{
    let mut copy = Vec::new(alloc);
    for item in items {
        copy.push(item.copy(alloc)?)?;
    }
    Ok(copy)
}
