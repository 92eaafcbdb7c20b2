//! What a frame does with a completion, by the table of `specs/Table.antt`.

ghost use Rattle.std.specs.Prelude.{◌≡◌, if◌then◌else◌};
ghost use Rattle.std.specs.Cmp.Lexicographic.{pointwise};
ghost use Rattle.std.specs.Prelude.{nat_eq};
ghost use Rattle.exceptions_core.specs.Table.{aims_at, has_label, names_one, taken};
ghost use Rattle.exceptions_core.specs.Ways.{answer_of, way_in};

use crate::completion::{Completion, Frame, Landing};
use dl_text::{Listed, Names, Units};

/// Whether a frame takes a completion, and whether it stays then.
#[derive(Clone, Copy, Debug, PartialEq, Eq)]
pub enum Way {
    Passes,
    Stays,
    Goes,
}

fn is_same_label(a: &Units, b: &Units) -> bool
    ensures { result ≡ pointwise nat_eq a.now b.now }
{
    a.items() == b.items()
}

fn has_label(labels: &Names, label: &Units) -> bool
    ensures { result ≡ has_label labels.now label.now }
{
    labels.items().iter().any(|own| is_same_label(own, label))
}

fn aims_at(labels: &Names, label: &Option<Units>) -> bool
    ensures { result ≡ aims_at labels.now label.now }
{
    match label {
        None => true,
        Some(label) => has_label(labels, label),
    }
}

fn names_one(labels: &Names, label: &Option<Units>) -> bool
    ensures { result ≡ names_one labels.now label.now }
{
    match label {
        None => false,
        Some(label) => has_label(labels, label),
    }
}

fn goes_if(takes: bool) -> Way
    ensures { result ≡ (if takes then Way.Goes else Way.Passes) }
{
    if takes { Way::Goes } else { Way::Passes }
}

fn stays_if(takes: bool) -> Way
    ensures { result ≡ (if takes then Way.Stays else Way.Passes) }
{
    if takes { Way::Stays } else { Way::Passes }
}

fn way_of_loop(labels: &Names, c: &Completion) -> Way
    ensures { result ≡ way_in (taken (Frame.Loop labels.now) c.now) }
{
    match c {
        Completion::Normal => Way::Stays,
        Completion::Continue(label) => stays_if(aims_at(labels, label)),
        Completion::Break(label) => goes_if(aims_at(labels, label)),
        Completion::Return(_) => Way::Passes,
        Completion::Throw(_) => Way::Passes,
    }
}

fn way_of_switch(labels: &Names, c: &Completion) -> Way
    ensures { result ≡ way_in (taken (Frame.Switch labels.now) c.now) }
{
    match c {
        Completion::Normal => Way::Goes,
        Completion::Break(label) => goes_if(aims_at(labels, label)),
        Completion::Continue(_) => Way::Passes,
        Completion::Return(_) => Way::Passes,
        Completion::Throw(_) => Way::Passes,
    }
}

fn way_of_label(labels: &Names, c: &Completion) -> Way
    ensures { result ≡ way_in (taken (Frame.Label labels.now) c.now) }
{
    match c {
        Completion::Normal => Way::Goes,
        Completion::Break(label) => goes_if(names_one(labels, label)),
        Completion::Continue(_) => Way::Passes,
        Completion::Return(_) => Way::Passes,
        Completion::Throw(_) => Way::Passes,
    }
}

fn way_of_catch(c: &Completion) -> Way
    ensures { result ≡ way_in (taken Frame.Catch c.now) }
{
    match c {
        Completion::Normal => Way::Goes,
        Completion::Throw(_) => Way::Goes,
        Completion::Break(_) => Way::Passes,
        Completion::Continue(_) => Way::Passes,
        Completion::Return(_) => Way::Passes,
    }
}

/// Whether the frame takes the completion.
pub(crate) fn way_of(frame: &Frame, c: &Completion) -> Way
    ensures { result ≡ way_in (taken frame.now c.now) }
{
    match frame {
        Frame::Loop(labels) => way_of_loop(labels, c),
        Frame::Switch(labels) => way_of_switch(labels, c),
        Frame::Label(labels) => way_of_label(labels, c),
        Frame::Catch => way_of_catch(c),
        Frame::Finally => Way::Goes,
        Frame::Call => Way::Goes,
    }
}

fn answer_of_catch(c: Completion) -> Landing
    ensures { result ≡ answer_of Frame.Catch c }
{
    match c {
        Completion::Throw(v) => Landing::Catch(v),
        Completion::Normal => Landing::Left,
        Completion::Break(_) => Landing::Left,
        Completion::Continue(_) => Landing::Left,
        Completion::Return(_) => Landing::Left,
    }
}

/// What a frame answers that takes the completion and goes.
pub(crate) fn answer_of(frame: Frame, c: Completion) -> Landing
    ensures { result ≡ answer_of frame c }
{
    match frame {
        Frame::Catch => answer_of_catch(c),
        Frame::Finally => Landing::Finally(c),
        Frame::Call => Landing::Caller(c),
        Frame::Loop(_) => Landing::Left,
        Frame::Switch(_) => Landing::Left,
        Frame::Label(_) => Landing::Left,
    }
}
