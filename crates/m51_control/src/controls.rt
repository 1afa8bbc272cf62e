//! The controls of a link.
ghost use Rattle.std.specs.Prelude.{◌≡◌, [], length};
ghost use Rattle.std.specs.List.{All};
ghost use Rattle.m51_control.specs.Controls.{AreKept};

use crate::Control;
use std::alloc::Global;
use std::marker::Model;

/// Controls, each with the number of its line, which contracts see as the list of these pairs. There are at most 1,000,
/// and each reserve is a range of RAM, up to 0FFH, or of external data memory, up to 0FFFFH, where it has at most
/// 65,535 bytes.
///
/// Source: own choice ("Control lines").
#[derive(Drop)]
pub struct Controls {
    items: Vec<(u32, Control)>,
}

impl Model for Controls {
    ghost use Rattle.std.specs.Prelude.{ℕ, List};
    ghost use Rattle.m51_control.specs.declared.control.Control.{Control};
    ghost use Rattle.m51_control.specs.Controls.{AreKept};

    ghost Value = { List (ℕ × Control) };

    ghost view = { λ c. c.items.items };

    ghost invariant = { λ c. AreKept c.items.items };
}

impl Controls {
    /// No controls. It allocates nothing.
    ///
    /// Source: own choice ("Control lines").
    pub fn none(alloc: Global) -> Controls
        ensures { result ≡ [] }
    {
        Controls {
            items: Vec::new(alloc),
        }
    }

    /// The controls of these lines, which must be as a `Controls` keeps them. It allocates nothing.
    ///
    /// Source: own choice ("Control lines").
    pub fn of(items: Vec<(u32, Control)>) -> Controls
        requires { AreKept items.items }
        ensures { result ≡ items.items }
    {
        Controls { items }
    }

    /// The controls, each with the number of its line, which is 1 for the first line of the file.
    ///
    /// Source: own choice ("Control lines").
    pub fn lines(&self) -> &[(u32, Control)]
        ensures list { result.now ≡ self.now }
        ensures kept { AreKept self.now }
    {
        &self.items
    }
}
