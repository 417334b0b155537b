// Descriptions in action language C as records: law records, and the counts beside them: no function.
#![tactic(auto)]

// A head is a fluent literal's code or false.
#[derive(Clone, Copy, Debug, PartialEq, Eq)]
pub enum Head {
    Lit(u8),
    False,
}

#[derive(Clone, Copy, Debug, PartialEq, Eq)]
pub enum Kind {
    Static,
    Dynamic,
}

// Places past a list's count are not read, nor a static law's after-list and its count.
#[derive(Clone, Copy, Debug, PartialEq, Eq)]
pub struct Law {
    pub kind: Kind,
    pub head: Head,
    pub if_count: u8,
    pub if_codes: [u8; 6],
    pub after_count: u8,
    pub after_codes: [u8; 6],
}

// The counts of a description and its horizon; its laws are lent beside it.
#[derive(Clone, Copy, Debug, Default, PartialEq, Eq)]
pub struct Description {
    pub fluents: usize,
    pub actions: usize,
    pub laws: usize,
    pub horizon: usize,
}
