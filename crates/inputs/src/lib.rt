// The reader of a whole input: a description, and behind its end line the history of it. Lines count over the whole input.
#![tactic(auto)]

ghost use Rattle.std.specs.Prelude.{◌≡◌, ◌-◌, ◌≤◌, length, take, drop, replicate};
ghost use Rattle.basics.specs.Refusals.{Numbered};
ghost use Rattle.action_language.specs.Atoms.{atom_count};
ghost use Rattle.description_lines.specs.Descriptions.{described};
ghost use Rattle.description_lines.specs.Answers.{record_of, laws_left};
ghost use Rattle.history_reader.specs.Histories.{history_reply_of, history_replied, values_left};
ghost use Rattle.law_runs.specs.Runs.{no_laws};
ghost use Rattle.whole_inputs.specs.Inputs.{moved_by, recorded_in};
ghost use Rattle.whole_inputs.specs.Internal.{CanMove};

use action_language::{Description, Law};
use basics::Refusal;

// Room for the values of the most atoms.
fn no_values() -> [u8; 1024]
    ensures { result ≡ replicate 1024 0 }
{
    [0; 1024]
}

// A history's answer in the whole input: the line of a refusal is moved up by the description's lines; place 0 of refusal 1 and the
// length of refusal 10 are not.
fn moved_up(lines: usize, said: Result<(), Refusal>) -> Result<(), Refusal>
    requires { CanMove lines (history_reply_of said) }
    ensures answers { history_reply_of result ≡ moved_by lines (history_reply_of said) }
    ensures numbered { Numbered said → Numbered result }
{
    let Refusal { reason, place } = match said {
        Err(refusal) => refusal,
        Ok(()) => return Ok(()),
    };
    let number = u8::from(reason);
    if number == 1 || number == 10 {
        return said;
    }
    Err(Refusal {
        reason,
        place: lines + place,
    })
}

// What the readers give: a refusal or that all was read, the description with its laws, and the values of the history, one
// for each atom. On a refusal by the description every count is 0 and nothing stands in the laws; on any refusal the values are 0.
#[derive(Clone, Copy, Debug, PartialEq, Eq)]
pub struct Input {
    pub answer: Result<(), Refusal>,
    pub description: Description,
    pub laws: [Law; 64],
    pub values: [u8; 1024],
    pub atoms: usize,
}

// Reads a whole input.
pub fn read_input(input: &[u8]) -> Input
    ensures answers { history_reply_of result.answer ≡ history_replied (recorded_in input.now) }
    ensures description { result.description ≡ record_of (described 64 input.now) }
    ensures laws { result.laws ≡ laws_left (described 64 input.now) no_laws }
    ensures bounded_laws { length result.laws ≡ 64 }
    ensures atoms { let d = record_of (described 64 input.now) in
        result.atoms ≡ atom_count d.fluents d.actions d.horizon }
    ensures values { take result.atoms result.values ≡ values_left (recorded_in input.now) (replicate result.atoms 0) }
    ensures padded { drop result.atoms result.values ≡ replicate (1024 - result.atoms) 0 }
    ensures bounded { (result.atoms ≤ 1024) × (length result.values ≡ 1024) }
    ensures numbered { Numbered result.answer }
{
    let mut laws = law_runs::no_laws();
    let mut values = no_values();
    match lent_laws::read_description(input, &mut laws) {
        Err(refusal) => Input {
            answer: Err(refusal),
            description: Description::default(),
            laws,
            values,
            atoms: 0,
        },
        Ok(read) => {
            let d = read.description;
            let atoms = record_acceptance::atom_count(d.fluents, d.actions, d.horizon);
            let text = &input[read.bytes..];
            let said = history_reader::read_history(input, text, &mut values[..atoms]);
            Input {
                answer: moved_up(read.lines, said),
                description: d,
                laws,
                values,
                atoms,
            }
        }
    }
}
