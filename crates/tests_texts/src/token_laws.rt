//! The laws of readers at types of this crate.

use std::test::*;
use text_tokens::{
    OtherPart, Part, PartBehind, PartBy, Recursive, RefusalKind, agreement_is_needed, as_often,
    behind_token, branch, chaining, choice, choice_by_role, closing, exact, groups_are_decided,
    judgement, limit, making, nesting, nothing, one_of_two, one_token, opening, option,
    puts_are_decided, refusing, repetition, running_sum, same_texts, sequence, small_texts,
    spans_rise, stopping, tokens_are_cut, tokens_are_one, whole_input,
};

/// What the texts of a part stand for.
#[derive(Clone, Copy)]
struct Short {
    number: u8,
}

/// What the texts of a part behind it stand for.
#[derive(Clone, Copy)]
struct Long {
    number: u16,
}

impl Part for Short {
    ghost use Rattle.text_tokens.specs.Reading.{pure};
    ghost use Rattle.text_tokens.specs.Grammar.{IsNothing};

    ghost is = { IsNothing (record { number = 0 }) };

    ghost reads = { pure (record { number = 0 }) };
}

impl OtherPart for Short {
    ghost use Rattle.text_tokens.specs.Reading.{pure};
    ghost use Rattle.text_tokens.specs.Grammar.{IsNothing};

    ghost is = { IsNothing (record { number = 1 }) };

    ghost reads = { pure (record { number = 1 }) };
}

impl PartBy<Short> for Long {
    ghost use Rattle.text_tokens.specs.Reading.{pure};
    ghost use Rattle.text_tokens.specs.Grammar.{IsNothing};

    ghost is = { λ before. IsNothing (record { number = before.number }) };

    ghost reads = { λ before. pure (record { number = before.number }) };
}

impl PartBy<u32> for Short {
    ghost use Rattle.text_tokens.specs.Reading.{pure};
    ghost use Rattle.text_tokens.specs.Grammar.{IsNothing};

    ghost is = { λ role. IsNothing (record { number = role }) };

    ghost reads = { λ role. pure (record { number = role }) };
}

impl PartBehind<u32> for Short {
    ghost use Rattle.text_tokens.specs.Reading.{pure};
    ghost use Rattle.text_tokens.specs.Grammar.{IsNothing};

    ghost is = { λ sign state. IsNothing (record { number = state }) };

    ghost reads = { λ sign state. pure (record { number = state }) };
}

impl Recursive for Short {
    ghost use Rattle.std.specs.Prelude.{ℕ};
    ghost use Rattle.text_tokens.specs.Reading.{pure};
    ghost use Rattle.text_tokens.specs.Grammar.{IsNothing};

    ghost value = { λ kind. ℕ };

    ghost is = { λ levels kind. IsNothing levels };

    ghost level = { λ levels inside kind. pure levels };
}

fn laws_of<A, B>()
where
    A: Part + OtherPart + PartBy<u32> + PartBehind<u32> + Recursive,
    B: PartBy<A>,
{
    exact::<A>();
    whole_input::<A>();
    nothing::<A>();
    making::<A, B>();
    same_texts::<A>();
    judgement::<A>();
    sequence::<A, B>();
    behind_token::<u32, A>();
    closing::<A>();
    choice::<A>();
    branch::<A>();
    refusing::<A>();
    stopping::<A>();
    one_of_two::<A>();
    option::<A>();
    choice_by_role::<u32, A>();
    limit::<A>();
    as_often::<A>();
    repetition::<u32, A>();
    chaining::<A, u32, A, B>();
    nesting::<A>();
}

#[test]
fn laws_hold_at_a_type(rt: HostRuntime) {
    one_token();
    opening();
    running_sum();
    laws_of::<Short, Long>();
    groups_are_decided();
    puts_are_decided();
    agreement_is_needed();
    tokens_are_cut();
    tokens_are_one();
    spans_rise();
    small_texts();
    assert!(rt; RefusalKind::TooDeep.number() < RefusalKind::TooMany.number());
}
