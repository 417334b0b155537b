// The words of a rule table. A slice of words stands for the rules from its front on.
ghost use Rattle.std.specs.Prelude.{◌≡◌, ◌≤◌, ◌<◌, length, get_or};
ghost use Rattle.basics.specs.Replies.{refusal};
ghost use Rattle.basics.specs.Refusals.{place_of};
ghost use Rattle.rule_tables.specs.Bodies.{head_in, front_negated, front_plain, front_applies};
ghost use Rattle.literal_sets.specs.Marks.{marked};
ghost use Rattle.logic_programs.specs.Words.{rule_size, rule_at, rule_fits, head_fits, head_of, parts_fit, bad_rule};

use literal_sets::marks;

// A word, or 0 past the end.
pub fn word(words: &[u16], i: usize) -> usize
    ensures { (result ≡ get_or words.now i 0) × (result < 65536) }
{
    words.get(i).copied().map_or(0, usize::from)
}

// How many words the rule at the front takes. Where there are three words, one test does for both counts.
pub fn rule_size(rest: &[u16]) -> usize
    ensures { result ≡ rule_size rest.now }
{
    match rest {
        [_, negated, plain, ..] => 3 + usize::from(*negated) + usize::from(*plain),
        _ => 3 + word(rest, 1) + word(rest, 2),
    }
}

// Whether a head is false or below 2 times atoms.
fn head_fits(head: usize, atoms: usize) -> bool
    ensures { result ≡ head_fits atoms head }
{
    head == 65535 || head / 2 < atoms
}

// Whether each part is below 2 times atoms.
fn parts_fit(parts: &[u16], atoms: usize) -> bool
    ensures { result ≡ parts_fit atoms parts.now }
{
    for part in parts {
        if atoms <= usize::from(*part) / 2 {
            return false;
        }
    }
    true
}

// Whether the rule at the front is whole and has no code of 2 times atoms or more.
fn rule_fits(rest: &[u16], atoms: usize) -> bool
    ensures { result ≡ rule_fits atoms rest.now }
{
    let size = rule_size(rest);
    size <= rest.len() && head_fits(word(rest, 0), atoms) && parts_fit(&rest[3..size], atoms)
}

// The word where the first rule starts that does not fit, or that would be the 4,097th.
pub fn bad_rule(table: &[u16], atoms: usize) -> Option<usize>
    ensures { place_of result ≡ bad_rule atoms table.now }
{
    let mut rest = table;
    let mut at: usize = 0;
    let mut rules: usize = 0;
    while !rest.is_empty() {
        if 4096 <= rules || !rule_fits(rest, atoms) {
            return Some(at);
        }
        let size = rule_size(rest);
        rest = &rest[size..];
        at += size;
        rules += 1;
    }
    None
}

// A whole rule, at the front of the words from it on.
#[derive(Clone, Copy)]
pub struct Rule<'a> {
    pub words: &'a [u16],
    pub ghost whole: { rule_size words.now ≤ length words.now },
}

impl<'a> Rule<'a> {
    // Its head's word: a literal code, or 65535 for false.
    pub fn head(&self) -> usize
        ensures { (result ≡ get_or self.now.words.now 0 0) × (result < 65536) }
    {
        usize::from(self.words[0])
    }

    // Its negated parts.
    pub fn negated(&self) -> &'a [u16]
        ensures { result.now ≡ (rule_at self.now.words.now).negated }
    {
        let words = self.words;
        let end = 3 + usize::from(words[1]);
        &words[3..end]
    }

    // Its plain parts.
    pub fn plain(&self) -> &'a [u16]
        ensures { result.now ≡ (rule_at self.now.words.now).plain }
    {
        let words = self.words;
        let start = 3 + usize::from(words[1]);
        let end = start + usize::from(words[2]);
        &words[start..end]
    }
}

// The negated parts of the rule at the front; none where it runs past the end.
pub fn negated_parts(rest: &[u16]) -> &[u16]
    ensures { result.now ≡ front_negated rest.now }
{
    if rest.len() < rule_size(rest) {
        return &rest[..0];
    }
    Rule { words: rest }.negated()
}

// The plain parts of the rule at the front; none where it runs past the end.
pub fn plain_parts(rest: &[u16]) -> &[u16]
    ensures { result.now ≡ front_plain rest.now }
{
    if rest.len() < rule_size(rest) {
        return &rest[..0];
    }
    Rule { words: rest }.plain()
}

// Whether the rule at the front is whole, no negated part of it is in x and every plain part is in y.
pub fn rule_applies(rest: &[u16], x: &[u64], y: &[u64]) -> bool
    ensures { result ≡ front_applies (marked x.now) (marked y.now) rest.now }
{
    if rest.len() < rule_size(rest) {
        return false;
    }
    let rule = Rule { words: rest };
    marks::none_in(rule.negated(), x) && marks::all_in(rule.plain(), y)
}

// Whether a head is a literal of the set; false is in no set.
pub fn head_in(head: usize, x: &[u64]) -> bool
    ensures { result ≡ head_in (head_of head) (marked x.now) }
{
    head != 65535 && marks::has(x, head)
}
