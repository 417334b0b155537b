// Law records by their form. Places past a list's count, and all of a static law's after-list, are 0.
ghost use Rattle.std.specs.Prelude.{◌≡◌, []};
ghost use Rattle.action_language.specs.Laws.{law_of};
ghost use Rattle.action_language.specs.declared.Kind.TheVariants.{Dynamic};
ghost use Rattle.action_language.specs.declared.Head.TheVariants.{False};
ghost use Rattle.line_values.specs.ShortLaws.{default_law, inertial_law};
ghost use Rattle.line_values.specs.Internal.{no_places, law_with};

use action_language::{Head, Kind, Law};

// A law's list: how many codes it has, and its six places.
#[derive(Clone, Copy, Debug, PartialEq, Eq)]
pub struct Places {
    pub count: u8,
    pub codes: [u8; 6],
}

impl Places {
    ghost use Rattle.line_values.specs.Internal.{no_places, one_place};

    // The empty list.
    fn none() -> Places
        ensures { result ≡ no_places }
    {
        Places {
            count: 0,
            codes: [0; 6],
        }
    }

    // The list of one code.
    fn one(code: u8) -> Places
        ensures { result ≡ one_place code }
    {
        Places {
            count: 1,
            codes: [code, 0, 0, 0, 0, 0],
        }
    }
}

fn law_with(kind: Kind, head: Head, ifs: Places, afters: Places) -> Law
    ensures { result ≡ law_with kind head ifs afters }
{
    let if_codes = ifs.codes;
    let after_codes = afters.codes;
    Law {
        kind,
        head,
        if_count: ifs.count,
        if_codes,
        after_count: afters.count,
        after_codes,
    }
}

// A law that begins: its lists are empty.
pub fn new_law(kind: Kind, head: Head) -> Law
    ensures { result ≡ law_of kind head [] [] }
{
    law_with(kind, head, Places::none(), Places::none())
}

// The law of `default`.
pub fn default_law(code: u8) -> Law
    ensures { result ≡ default_law code }
{
    let alone = Places::one(code);
    law_with(Kind::Static, Head::Lit(code), alone, Places::none())
}

// The law of `inertial`.
pub fn inertial_law(code: u8) -> Law
    ensures { result ≡ inertial_law code }
{
    let alone = Places::one(code);
    law_with(Kind::Dynamic, Head::Lit(code), alone, alone)
}

// The law of `causes` and `by`.
pub fn causes_law(head: Head, afters: Places) -> Law
    ensures { result ≡ law_with Dynamic head no_places afters }
{
    law_with(Kind::Dynamic, head, Places::none(), afters)
}

// The law of `nonexecutable`.
pub fn nonexecutable_law(afters: Places) -> Law
    ensures { result ≡ law_with Dynamic False no_places afters }
{
    causes_law(Head::False, afters)
}
