// The functions over a lent run of law records, one after the other: reads a description and its history from standard input, and
// prints what each of them answers, the words that are left in the table, and names as they are shown.
#![tactic(auto)]

ghost use Rattle.std.specs.Prelude.{◌≡◌, length};

use action_language::{Description, Law};
use basics::Refusal;
use causal_reading::Reading;
use history_check::Finding;
use std::io;
use std::io::Read;

// Room for the largest table.
fn no_table() -> [u16; 30912]
    ensures { 30912 ≡ length result }
{
    [0; 30912]
}

fn print_refusal(rt: &impl Print, refusal: Refusal) -> io::Result<()> {
    let number = u8::from(refusal.reason);
    let place = refusal.place;
    println!(rt; "refused={number}\nplace={place}")
}

// The first words of a table, each behind a space.
fn print_table(rt: &impl Print, table: &[u16], words: usize) -> io::Result<()> {
    print!(rt; "table=")?;
    for word in table.iter().take(words) {
        print!(rt; " {word}")?;
    }
    println!(rt; "")
}

fn print_checked(rt: &impl Print, checked: Result<Finding, Refusal>) -> io::Result<()> {
    match checked {
        Err(refusal) => print_refusal(rt, refusal),
        Ok(Finding::Missing(atom)) => println!(rt; "missing={atom}"),
        Ok(Finding::Clash(atom)) => println!(rt; "clash={atom}"),
        Ok(Finding::Broken(rule)) => println!(rt; "broken={rule}"),
        Ok(Finding::Unfounded(code)) => println!(rt; "unfounded={code}"),
        Ok(Finding::Passes) => println!(rt; "answer=passes"),
    }
}

fn print_reading(rt: &impl Print, reading: Result<Reading, Refusal>) -> io::Result<()> {
    match reading {
        Err(refusal) => print_refusal(rt, refusal),
        Ok(Reading::Contradicted { time, law }) => println!(rt; "contradicted={time}\nlaw={law}"),
        Ok(Reading::Uncaused { time, fluent }) => println!(rt; "uncaused={time}\nfluent={fluent}"),
        Ok(Reading::Path) => println!(rt; "causal=path"),
    }
}

fn show_judged(rt: &impl Print, d: Description, laws: &[Law], values: &[u8]) -> io::Result<()> {
    let mut table = no_table();
    let judged = lent_laws::judge(d, laws, values, &mut table);
    print_checked(rt, judged.checked)?;
    print_reading(rt, judged.reading)
}

fn show_laws(rt: &impl Print, d: Description, laws: &[Law], values: &[u8]) -> io::Result<()> {
    let mut table = no_table();
    match lent_laws::translate(d, laws, &mut table) {
        Err(refusal) => print_refusal(rt, refusal),
        Ok(written) => {
            let atoms = written.atoms;
            let rules = written.rules;
            let words = written.words;
            println!(rt; "atoms={atoms}\nrules={rules}\nwords={words}")?;
            print_table(rt, &table, words)?;
            show_judged(rt, d, laws, values)
        }
    }
}

// A name as it was declared, as which it is in letters alone; a number that nothing declares shows an empty part.
fn print_name(rt: &impl Print, sort: &str, name: &[u8]) -> io::Result<()> {
    let name = name.escape_ascii();
    println!(rt; "{sort}={name}")
}

fn show_names(rt: &impl Print, text: &[u8]) -> io::Result<()> {
    print_name(rt, "fluent", shown_names::fluent_name(text, 0))?;
    print_name(rt, "fluent", shown_names::fluent_name(text, 2))?;
    print_name(rt, "action", shown_names::action_name(text, 0))?;
    print_name(rt, "action", shown_names::action_name(text, 1))
}

// The whole input is read through a lent run, as check does it.
fn show(rt: &impl Print, input: &[u8]) -> io::Result<()> {
    let whole = inputs::read_input(input);
    if let Err(refusal) = whole.answer {
        return print_refusal(rt, refusal);
    }
    let d = whole.description;
    let laws = d.laws;
    println!(rt; "laws={laws}")?;
    show_laws(rt, d, &whole.laws, &whole.values[..whole.atoms])
}

fn main(rt: HostRuntime) -> io::Result<()> {
    let mut input = Vec::new(rt.alloc());
    rt.reader().take(65536).read_to_end(&mut input)?;
    show(&rt, &input)?;
    show_names(&rt, &input)
}
