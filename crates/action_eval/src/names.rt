//! What names stand for where a part of a program is evaluated.

ghost use Rattle.std.specs.Prelude.{◌≡◌, ◌≤◌, length};
ghost use Rattle.amoebot_state.specs.Limits.{most_vars};
ghost use Rattle.action_tree.specs.Limits.{most_names};

use action_tree::{MOST_NAMES, Var, Word};
use amoebot_state::Port;
use arrayvec::ArrayVec;

/// A name in force, and the port that it stands for. A free place has no name.
#[derive(Clone, Copy, Default)]
pub struct Bound<'p> {
    pub name: Option<&'p Word>,
    pub port: Port,
}

/// The variables in the order of their declaration, and the names
/// in force in the order of the text.
/// Each name that is used has its place among them, so none is looked for.
#[derive(Drop)]
pub struct Names<'p> {
    pub vars: &'p [Var],
    pub bound: ArrayVec<Bound<'p>, MOST_NAMES>,
    ghost few: { length vars.now ≤ most_vars },
}

impl<'p> Names<'p> {
    ghost use Rattle.std.specs.Prelude.{◌<◌, [], true, map};
    ghost use Rattle.action_tree.specs.{Views.{name_of, var_of}, Scopes.{names_of_vars}};
    ghost use Rattle.action_tree.specs.{Places.{is_at_place}, declared.word.Word.{Word}};
    ghost use Rattle.action_check.specs.Rules.{IsInForce, IsVariable};
    ghost use Rattle.action_meaning.specs.Names.{var_number, port_named, bind as spec_bind};
    ghost use Rattle.action_meaning.specs.Names.{Names as Known};
    ghost use Rattle.action_eval.specs.{Known.{known, scope_of}, UnderNames.{IsUnder}};

    /// The names at the start of an action: no name is in force.
    pub fn new(vars: &'p [Var]) -> Names<'p>
        requires { length vars.now ≤ most_vars }
        ensures { known result ≡ record { vars = names_of_vars (map var_of vars.now); bound = [] } }
    {
        Names {
            vars,
            bound: ArrayVec::new(),
        }
    }

    /// The number of a variable: how many were declared before it.
    pub fn var_number(&self, name: &Word) -> u8
        requires kept { IsVariable (scope_of (known self.now)) (name_of name.now) }
        requires placed { is_at_place (scope_of (known self.now)).vars name.now ≡ true }
        ensures value { result ≡ var_number (known self.now) (name_of name.now) }
        ensures below { result < most_vars }
    {
        name.place
    }

    /// The port that a name in force stands for.
    pub fn port_named(&self, name: &Word) -> Port
        requires kept { IsInForce (scope_of (known self.now)) (name_of name.now) }
        requires placed { is_at_place (scope_of (known self.now)).bound name.now ≡ true }
        ensures { result ≡ port_named (known self.now) (name_of name.now) }
    {
        self.bound[usize::from(name.place)].port
    }

    /// The same names again.
    pub fn copy(&self) -> Names<'p>
        ensures { known result ≡ known self.now }
    {
        let mut bound = ArrayVec::new();
        for name in self.bound.iter() {
            bound.push(*name);
        }
        Names {
            vars: self.vars,
            bound,
        }
    }

    /// With one more name in force.
    pub fn bind(&self, name: &'p Word, port: Port) -> Names<'p>
        requires { length (known self.now).bound < most_names }
        ensures { known result ≡ spec_bind (known self.now) (name_of name.now) port }
    {
        let mut names = self.copy();
        names.bound.push(Bound {
            name: Some(name),
            port,
        });
        names
    }

    /// The last name in force stands for another port.
    pub fn set_last(&mut self, port: Port)
        requires { 0 < length (known self.old).bound }
        ensures { (xs : Known) (name : Word) → IsUnder xs name (known self.old)
            → known self.new ≡ spec_bind xs (name_of name) port }
    {
        let last = self.bound.len() - 1;
        self.bound[last].port = port;
    }
}
