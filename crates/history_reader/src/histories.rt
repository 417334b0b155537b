// Reading a history: state and act lines in turn, then the end line.
ghost use Rattle.std.specs.Prelude.{◌≡◌, List, ℕ, ◌+◌, ◌≤◌, ◌<◌, length, drop};
ghost use Rattle.basics.specs.Refusals.{Numbered};
ghost use Rattle.basics.specs.Replies.{Reply};
ghost use Rattle.text_forms.specs.Lines.{first_line};
ghost use Rattle.text_forms.specs.Lists.{list_of};
ghost use Rattle.text.specs.Internal.{spelled};
ghost use Rattle.history_reader.specs.Histories.{most, listed, history_end, states_from};
ghost use Rattle.history_reader.specs.Internal.{wanted_at, place_from, marked_by, read_as, atoms_of};
ghost use Rattle.description_reader.specs.Internal.{draft_by, NumberedReason};
ghost use Rattle.action_language.specs.declared.Law.{Law};

use basics::{Reason, Refusal};
use description_reader::declarations::Declarations;
use text::{lines, lists};
use text_forms::{Key, Names};

// The end line: 2 where it is lacking or has a value, 7 where bytes remain behind it.
fn check_end(text: &[u8], at: usize, line: usize) -> Result<(), Refusal>
    requires { line < 100 }
    ensures answers { (vs : List ℕ) → read_as result vs ≡ history_end (first_line (drop at text.now)) line vs }
    ensures numbered { Numbered result }
{
    let l = lines::line_at(text, at);
    if l.key != Some(Key::End) || l.from < l.to {
        return Err(Refusal {
            reason: Reason::WrongLine,
            place: line,
        });
    }
    if l.next < text.len() {
        return Err(Refusal {
            reason: Reason::MoreBytes,
            place: line + 1,
        });
    }
    Ok(())
}

// What a line of literals must be: its key, the places of the names of its sort, and where the values of its time begin.
#[derive(Clone, Copy)]
struct Wanted {
    key: Key,
    low: usize,
    high: usize,
    base: usize,
}

// Odd lines are states, even ones acts.
fn line_due(declared: &Declarations, line: usize) -> Wanted
    requires { (1 ≤ line) × (line < 100) }
    ensures { result ≡ wanted_at declared.now.fluents declared.now.names.count line }
{
    let count = declared.names.count;
    let base = (line - 1) / 2 * count;
    if line % 2 == 1 {
        return Wanted {
            key: Key::State,
            low: 0,
            high: declared.fluents,
            base,
        };
    }
    Wanted {
        key: Key::Act,
        low: declared.fluents,
        high: count,
        base,
    }
}

// Where the items of a list begin: behind the end of an empty one.
fn first_place(size: usize) -> usize
    ensures { result ≡ place_from size }
{
    usize::from(size == 0)
}

// Marks the literals of a line's list in the values; 6 at the first that is none.
fn mark_list(
    description: &[u8],
    names: &Names,
    list: &[u8],
    w: &Wanted,
    values: &mut [u8],
) -> Result<(), Reason>
    requires { length list.now ≤ 65535 }
    ensures answers { (line : ℕ) (next : List ℕ → Reply (List ℕ))
        → marked_by result line (next values.new)
        ≡ listed (list_of (spelled description.now names.now) w.now.low w.now.high most list.now) line w.now.base values.old next }
    ensures numbered { NumberedReason result }
{
    let mut i = first_place(list.len());
    while i <= list.len() {
        let item = lists::next_item(list, i, description, names, w.low, w.high);
        let Some(code) = item.code else {
            return Err(Reason::BadLiteral);
        };
        history_values::mark(values, w.base, code);
        i = item.next;
    }
    Ok(())
}

// Reads a history of at most 65,535 bytes by the names of the description: the state and act lines, then the end line, up to the first
// bad line. What its lines list is marked in the values.
pub(crate) fn read(
    description: &[u8],
    text: &[u8],
    declared: &Declarations,
    values: &mut [u8],
) -> Result<(), Refusal>
    requires { length text.now ≤ 65535 }
    ensures answers { (laws : List Law)
        → read_as result values.new
        ≡ states_from declared.now.horizon (draft_by description.now laws declared.now) 0 1 values.old text.now }
    ensures numbered { Numbered result }
{
    let last = 2 * declared.horizon + 1;
    let mut at: usize = 0;
    for line in 1..last + 1 {
        let l = lines::line_at(text, at);
        let w = line_due(declared, line);
        if l.key != Some(w.key) {
            return Err(Refusal {
                reason: Reason::WrongLine,
                place: line,
            });
        }
        let list = &text[l.from..l.to];
        if let Err(reason) = mark_list(description, &declared.names, list, &w, values) {
            return Err(Refusal {
                reason,
                place: line,
            });
        }
        history_values::fill_absent(values, w.base, declared.fluents, w.high);
        at = l.next;
    }
    check_end(text, at, last + 1)
}

// How many atoms there are.
pub(crate) fn atom_count(declared: &Declarations) -> usize
    ensures { (result ≡ atoms_of declared.now) × (result ≤ 1024) }
{
    record_acceptance::atom_count(
        declared.fluents,
        declared.names.count - declared.fluents,
        declared.horizon,
    )
}
