//! The names known where a part of a program stands, and the place of each of them.

ghost use Rattle.std.specs.{Prelude.{◌≡◌, ◌≤◌, length}, List.{position}, Str.{bytes_eq}};
ghost use Rattle.amoebot_state.specs.Limits.{most_vars};

use crate::program::Var;
use crate::word::{MOST_NAMES, NameText, Word};
use arrayvec::ArrayVec;

/// The variables in the order of their declaration, and the names
/// in force in the order of the text.
#[derive(Drop)]
pub struct Scope<'v> {
    pub vars: &'v [Var],
    pub bound: ArrayVec<NameText, MOST_NAMES>,
    ghost few: { length vars.now ≤ most_vars },
}

impl<'v> Scope<'v> {
    ghost use Rattle.std.specs.Prelude.{[], map};
    ghost use Rattle.action_tree.specs.{Places.{place_among}, PlacedScope.{placed_scope}};
    ghost use Rattle.action_tree.specs.{Scopes.{HasRoom, names_of_vars, scope_with}, Views.{name_of, var_of}};

    /// The names at the start of an action: no name is in force.
    pub fn new(vars: &'v [Var]) -> Scope<'v>
        requires { length vars.now ≤ most_vars }
        ensures { placed_scope result ≡ record { vars = names_of_vars (map var_of vars.now); bound = [] } }
    {
        Scope {
            vars,
            bound: ArrayVec::new(),
        }
    }

    /// The same names again.
    pub fn copy(&self) -> Scope<'v>
        ensures { placed_scope result ≡ placed_scope self.now }
    {
        let mut bound = ArrayVec::new();
        for text in self.bound.iter() {
            bound.push(*text);
        }
        Scope {
            vars: self.vars,
            bound,
        }
    }

    /// With one more name in force.
    pub fn bind(&self, name: &Word) -> Scope<'v>
        requires { HasRoom (placed_scope self.now) 1 }
        ensures { placed_scope result ≡ scope_with (placed_scope self.now) (name_of name.now) }
    {
        let mut scope = self.copy();
        scope.bound.push(name.text);
        scope
    }

    /// The place of a variable.
    pub fn var_place(&self, name: &Word) -> u8
        ensures { result ≡ place_among (placed_scope self.now).vars name.now.text.bytes }
    {
        match first_var(self.vars, name) {
            Some(place) => place as u8,
            None => self.vars.len() as u8,
        }
    }

    /// The place of a name in force.
    pub fn bound_place(&self, name: &Word) -> u8
        ensures { result ≡ place_among (placed_scope self.now).bound name.now.text.bytes }
    {
        let bound = self.bound.as_slice();
        match first_text(bound, name) {
            Some(place) => place as u8,
            None => bound.len() as u8,
        }
    }
}

/// The place of the first variable with a name.
fn first_var(vars: &[Var], name: &Word) -> Option<usize>
    ensures { result ≡ position (λ v. bytes_eq v.name.text.bytes name.now.text.bytes) vars.now }
{
    vars.iter().position(|var| var.name.text == name.text)
}

/// The place of the first of these texts that is that of a name.
fn first_text(texts: &[NameText], name: &Word) -> Option<usize>
    ensures { result ≡ position (λ text. bytes_eq text.bytes name.now.text.bytes) texts.now }
{
    texts.iter().position(|text| *text == name.text)
}
