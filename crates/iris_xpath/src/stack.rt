//! What is open, the innermost first.
ghost use Rattle.iris_xpath.specs.Parens.{parens_in};
ghost use Rattle.std.specs.Prelude.{◌≡◌, [], ◌∷◌, OnOk, MatchOption};

use crate::state::Frame;
use iris_tree::Mem;
use std::alloc::Global;
use std::marker::Model;

/// The brackets and parentheses that are open, seen as a list with the innermost first.
#[derive(Drop)]
pub struct Stack {
    frames: Vec<Frame>,
}

impl Model for Stack {
    ghost use Rattle.std.specs.Prelude.{List, reverse};
    ghost use Rattle.iris_xpath.specs.declared.state.Frame.{Frame};
    ghost use Rattle.std.specs.Coded.{codes};
    ghost use Rattle.iris_xpath.specs.contracts.expression.Expression as expression;

    ghost Value = { List Frame };

    ghost coded = { Prim.hlevel (codes, expression.the_row.coded) };

    ghost view = { λ s. reverse s.frames.items };
}

impl Stack {
    /// Nothing is open.
    pub fn new(alloc: Global) -> Stack
        ensures { result ≡ [] }
    {
        Stack {
            frames: Vec::new(alloc),
        }
    }

    /// Opens one more.
    pub fn push(&mut self, frame: Frame) -> Mem<()>
        ensures { OnOk result (self.new ≡ frame ∷ self.old) }
    {
        self.frames.push(frame)?;
        Ok(())
    }

    /// Closes the innermost.
    pub fn pop(&mut self) -> Option<Frame>
        ensures { MatchOption result (self.old ≡ []) (λ frame. self.old ≡ frame ∷ self.new) }
    {
        self.frames.pop()
    }

    /// How many of the innermost are parentheses.
    pub fn parens(&self) -> usize
        ensures { result ≡ parens_in self.now }
    {
        let total = self.frames.len();
        let mut rest = self.frames.as_slice();
        'frames: while let Some((last, front)) = rest.split_last() {
            match last {
                Frame::Paren { .. } => rest = front,
                Frame::Bracket { .. } => return total - rest.len(),
            }
        }
        total - rest.len()
    }
}
