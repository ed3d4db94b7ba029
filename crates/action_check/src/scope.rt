//! Which names are known where a part of a program stands,
//! and what is wrong with one name or one number there.

ghost use Rattle.std.specs.Prelude.{◌≡◌, []};
ghost use Rattle.action_tree.specs.Views.{name_of, literal_of};
ghost use Rattle.action_tree.specs.Scopes.{HasRoom, is_among, scope_with as spec_bind};
ghost use Rattle.action_check.specs.Told.{first_of, known_scope, texts};
ghost use Rattle.action_check.specs.Faults as spec;

use action_tree::{Lit, MOST_NAMES, NameText, Word};
use arrayvec::ArrayVec;
use indexmap::IndexSet;
use text_tokens::{Refusal, RefusalKind};

/// The variables, in the order of their declaration, and the names in force.
#[derive(Drop)]
pub struct Scope<'a> {
    pub vars: &'a IndexSet<NameText>,
    pub bound: ArrayVec<NameText, MOST_NAMES>,
}

/// The refusal of a name.
pub fn refused(name: &Word, kind: RefusalKind) -> Result<(), Refusal>
    ensures { result ≡ first_of (spec.blamed kind name.now.line) }
{
    Err(Refusal {
        line: name.line,
        kind,
    })
}

impl<'a> Scope<'a> {
    /// What is known at the beginning of an action.
    pub fn new(vars: &'a IndexSet<NameText>) -> Scope<'a>
        ensures { known_scope result ≡ record { vars = texts vars.now.keys; bound = [] } }
    {
        Scope {
            vars,
            bound: ArrayVec::new(),
        }
    }

    #[tactic(auto, using(crate::proofs::Texts::any_text))]
    fn is_var(&self, name: &Word) -> bool
        ensures { result ≡ is_among (known_scope self.now).vars (name_of name.now) }
    {
        self.vars.contains(&name.text)
    }

    #[tactic(auto, using(crate::proofs::Texts::any_same_text))]
    fn is_bound(&self, name: &Word) -> bool
        ensures { result ≡ is_among (known_scope self.now).bound (name_of name.now) }
    {
        self.bound.contains(&name.text)
    }

    /// The same names again.
    pub fn copy(&self) -> Scope<'a>
        ensures { known_scope result ≡ known_scope self.now }
    {
        let mut bound = ArrayVec::new();
        for text in self.bound.iter() {
            bound.push(*text);
        }
        Scope {
            vars: self.vars,
            bound,
        }
    }

    /// What is known behind the binding of one more name.
    #[tactic(auto, using(crate::proofs::Texts::texts_length))]
    pub fn bind(&self, name: &Word) -> Scope<'a>
        requires { HasRoom (known_scope self.now) 1 }
        ensures { known_scope result ≡ spec_bind (known_scope self.now) (name_of name.now) }
    {
        let mut scope = self.copy();
        scope.bound.push(name.text);
        scope
    }

    /// The use of a variable.
    pub fn variable(&self, name: &Word) -> Result<(), Refusal>
        ensures { result ≡ first_of (spec.var_faults (known_scope self.now) (name_of name.now)) }
    {
        if self.is_var(name) {
            Ok(())
        } else if self.is_bound(name) {
            refused(name, RefusalKind::WrongType)
        } else {
            refused(name, RefusalKind::UnknownName)
        }
    }

    /// The use of a bound name.
    pub fn bound_name(&self, name: &Word) -> Result<(), Refusal>
        ensures { result ≡ first_of (spec.bound_faults (known_scope self.now) (name_of name.now)) }
    {
        if self.is_bound(name) {
            Ok(())
        } else if self.is_var(name) {
            refused(name, RefusalKind::WrongType)
        } else {
            refused(name, RefusalKind::UnknownName)
        }
    }

    /// The binding of a name.
    pub fn new_name(&self, name: &Word) -> Result<(), Refusal>
        ensures { result ≡ first_of (spec.binding_faults (known_scope self.now) (name_of name.now)) }
    {
        if self.is_var(name) || self.is_bound(name) {
            refused(name, RefusalKind::TwiceNamed)
        } else {
            Ok(())
        }
    }
}

/// A number that is at most so large.
pub fn within(most: u32, number: &Lit) -> Result<(), Refusal>
    ensures { result ≡ first_of (spec.range_faults most (literal_of number.now)) }
{
    if number.value <= most {
        Ok(())
    } else {
        Err(Refusal {
            line: number.line,
            kind: RefusalKind::BadRange,
        })
    }
}
