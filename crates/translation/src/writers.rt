// A writer of rules into a lent table of words. Each method stores its words behind those that stand there already. What the words
// are is said by rule_words, by their place in a rule.
ghost use Rattle.std.specs.Prelude.{◌≡◌, [], ◌∷◌, map, ◌+◌, ◌<◌, ◌≤◌, length};
ghost use Rattle.basics.specs.Search.{range};
ghost use Rattle.logic_programs.specs.Words.{rule_words, words};
ghost use Rattle.translation_rules.specs.RuleForms.{choices};
ghost use Rattle.rule_words.specs.Internal.{rule_for};
ghost use Rattle.translation_rules.specs.Rules.{per_law, action_atoms};
ghost use Rattle.translation_rules.specs.Translated.{table_for, overwritten};
ghost use Rattle.translation.specs.Internal.{law_rules};
ghost use Rattle.translation.specs.Writers.{Wrote};

use action_language::{Description, Law};
use rule_words::lists::{by_kind, rule_size};
use rule_words::{choice_words, rule_word};

// The lent table, and the place of the next word.
#[derive(Drop)]
struct Writer<'a> {
    table: &'a mut [u16],
    at: usize,
}

impl Writer<'_> {
    // One word.
    fn word(&mut self, word: u16)
        requires { self.old.at < length self.old.table.now }
        ensures { Wrote (word ∷ []) self.old self.new }
    {
        self.table[self.at] = word;
        self.at += 1;
    }

    // A law's rule for time t.
    fn rule(&mut self, law: Law, n: usize, t: usize)
        requires bound { (n ≤ 32) × (t ≤ 30) }
        requires room { self.old.at + length (rule_words (rule_for n law.kind law t)) ≤ length self.old.table.now }
        ensures { Wrote (rule_words (rule_for n law.kind law t)) self.old self.new }
    {
        for i in 0..rule_size(law) {
            self.word(rule_word(law, n, t, i));
        }
    }

    // A law's rules for times 0 to times - 1.
    fn times(&mut self, law: Law, n: usize, times: usize)
        requires bound { (n ≤ 32) × (times ≤ 31) }
        requires room { self.old.at + length (words (map (rule_for n law.kind law) (range 0 times))) ≤ length self.old.table.now }
        ensures { Wrote (words (map (rule_for n law.kind law) (range 0 times))) self.old self.new }
    {
        for t in 0..times {
            self.rule(law, n, t);
        }
    }

    // The rules of the laws, law by law: of each static law for times 0 to static_times - 1, and of each dynamic law for times 0
    // to dynamic_times - 1.
    fn laws(&mut self, laws: &[Law], n: usize, static_times: usize, dynamic_times: usize)
        requires bound { (n ≤ 32) × (static_times ≤ 31) × (dynamic_times ≤ 31) }
        requires room { self.old.at + length (words (per_law (law_rules n static_times dynamic_times) laws.now))
            ≤ length self.old.table.now }
        ensures { Wrote (words (per_law (law_rules n static_times dynamic_times) laws.now)) self.old self.new }
    {
        for law in laws {
            self.times(*law, n, by_kind(*law, static_times, dynamic_times));
        }
    }

    // The choice of one atom.
    fn choice(&mut self, atom: usize)
        requires bound { atom < 1024 }
        requires room { self.old.at + 8 ≤ length self.old.table.now }
        ensures { Wrote (words (choices (atom ∷ []))) self.old self.new }
    {
        let behind = self.at + 8;
        self.table[self.at..behind].copy_from_slice(&choice_words(atom));
        self.at = behind;
    }

    // The choices of `count` atoms from `first` on.
    fn choices(&mut self, first: usize, count: usize)
        requires bound { first + count ≤ 1024 }
        requires room { self.old.at + length (words (choices (range first count))) ≤ length self.old.table.now }
        ensures { Wrote (words (choices (range first count))) self.old self.new }
    {
        for atom in first..first + count {
            self.choice(atom);
        }
    }

    // The choices of the actions in each step, of m actions beside n fluents.
    fn actions(&mut self, n: usize, m: usize, horizon: usize)
        requires bound { (n ≤ 24) × (m ≤ 8) × (horizon ≤ 30) }
        requires room { self.old.at + length (words (choices (action_atoms n m 0 horizon))) ≤ length self.old.table.now }
        ensures { Wrote (words (choices (action_atoms n m 0 horizon))) self.old self.new }
    {
        for step in 0..horizon {
            self.choices(step * (n + m) + n, m);
        }
    }
}

// The whole translation of the laws that the description counts, from the table's first word on.
pub(crate) fn write_table(table: &mut [u16], d: Description, laws: &[Law])
    requires limits { (d.fluents ≤ 24) × (d.actions ≤ 8) × (d.laws ≤ 64) × (d.horizon ≤ 30) }
    requires lent { d.laws ≤ length laws.now }
    requires laws_in_bounds { length (table_for d laws.now) ≤ length table.old }
    ensures { table.new ≡ overwritten (table_for d laws.now) table.old }
{
    let counted = &laws[..d.laws];
    let n = d.fluents + d.actions;
    let mut writer = Writer { table, at: 0 };
    writer.laws(counted, n, d.horizon + 1, 0);
    writer.laws(counted, n, 0, d.horizon);
    writer.choices(0, d.fluents);
    writer.actions(d.fluents, d.actions, d.horizon);
}
