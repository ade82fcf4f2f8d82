//! The contexts of a program, by number.

ghost use Rattle.std.specs.Prelude.{◌≡◌, ◌<◌, [], ◌∷◌, ◌++◌, length, None, Some, IfOk, IfSome, OnErr, MatchOption};
ghost use Rattle.proc_grid.specs.Grid.{IsGrid};
ghost use Rattle.proc_grid.specs.Held.{context_at};

use crate::Context;
use std::alloc::{AllocError, Global};
use std::marker::Model;

/// The contexts of a program, numbered from 0 in the order in which they were added.
#[derive(Debug, Drop)]
pub struct Contexts {
    held: Vec<Context>,
}

impl Model for Contexts {
    ghost use Rattle.std.specs.Prelude.{List};
    ghost use Rattle.proc_grid.specs.Grid.{Grid};

    ghost Value = { List Grid };

    ghost view = { λ c. c.held.items };
}

// Room that most programs don't fill.
const USUAL: usize = 16;

impl Contexts {
    /// No context is held.
    pub fn new(alloc: Global) -> Result<Contexts, AllocError>
        ensures { IfOk result (λ contexts. contexts ≡ []) }
    {
        Ok(Contexts {
            held: Vec::with_capacity(alloc, USUAL)?,
        })
    }

    /// Adds a context; the answer is its number, counted from 0. A context that finds no memory is dropped, and the
    /// numbers given before stay.
    pub fn add(&mut self, ctx: Context) -> Result<u32, AllocError>
        requires { length self.old < 65536 }
        ensures number { IfOk result (λ number. number ≡ length self.old) }
        ensures added { IfOk result (λ _. self.new ≡ self.old ++ ctx ∷ []) }
        ensures refused { OnErr result (self.new ≡ self.old) }
    {
        let number = self.held.len() as u32;
        self.held.push(ctx)?;
        Ok(number)
    }

    /// The context with the number `n`. None exactly where no context has the number.
    pub fn get(&self, n: i64) -> Option<&Context>
        ensures found { MatchOption result (context_at self.now n ≡ None)
            (λ context. context_at self.now n ≡ Some context.now) }
        ensures grid { IfSome result (λ context. IsGrid context.now) }
    {
        if n < 0 {
            return None;
        }
        match self.held.get(n as usize) {
            Some(context) => {
                context.is_grid();
                Some(context)
            }
            None => None,
        }
    }
}
