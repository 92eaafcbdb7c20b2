ghost use Rattle.std.specs.Prelude.{◌≡◌, ◌∷◌, [], drop, IfOk, MatchOption};

use first_grammar::{FirstStatement, FirstStatements};
use std::alloc::{AllocError, Global};
use std::marker::Model;
use std::rc::Rc;

/// The statements of a body, which its calls share.
#[derive(Drop)]
pub struct Code {
    statements: Rc<FirstStatements>,
}

impl Model for Code {
    ghost use Rattle.std.specs.Prelude.{List};
    ghost use Rattle.first_grammar.specs.declared.script.FirstStatement.{FirstStatement};

    ghost Value = { List FirstStatement };

    ghost view = { λ c. c.statements.value };
}

impl Code {
    pub fn new(alloc: Global, statements: FirstStatements) -> Result<Code, AllocError>
        ensures { IfOk result (λ c. c ≡ statements) }
    {
        Ok(Code {
            statements: Rc::new(alloc, statements)?,
        })
    }

    /// The same statements, which are not copied.
    pub fn share(&self) -> Result<Code, AllocError>
        ensures { IfOk result (λ c. c ≡ self.now) }
    {
        Ok(Code {
            statements: self.statements.clone()?,
        })
    }
}

/// The statements of a body that are still to come.
#[derive(Drop)]
pub struct Rest {
    code: Code,
    next: usize,
}

impl Model for Rest {
    ghost use Rattle.std.specs.Prelude.{List, drop, length, ◌≤◌};
    ghost use Rattle.first_grammar.specs.declared.script.FirstStatement.{FirstStatement};

    ghost Value = { List FirstStatement };

    ghost view = { λ r. drop r.next r.code };

    ghost invariant = { λ r. r.next ≤ length r.code };
}

impl Rest {
    /// All statements of a body.
    pub fn new(code: Code) -> Rest
        ensures { result ≡ code }
    {
        Rest { code, next: 0 }
    }

    /// The next statement.
    pub fn first(&self) -> Option<&FirstStatement>
        ensures { MatchOption result (self.now ≡ []) (λ s. self.now ≡ s.now ∷ drop 1 self.now) }
    {
        self.code.statements.as_slice().get(self.next)
    }

    /// Goes on behind the next statement, if there is one.
    #[tactic(auto, using(crate::proofs::ListLemmas::passed_one, crate::proofs::ListLemmas::passed_none))]
    pub fn pass(&mut self)
        ensures { self.new ≡ drop 1 self.old }
    {
        if self.next < self.code.statements.len() {
            self.next += 1;
        }
    }
}
