use dbl_record::Record;

/// Which records a gate accepts.
#[derive(Clone, Copy)]
pub enum Rule {
    /// Records without a value, and those with a value of at most so many bytes.
    MaxValue(u64),
}

impl Rule {
    ghost use Rattle.std.specs.Prelude.{◌≡◌};
    ghost use Rattle.dbl_hooks_gate.specs.Rules.{is_allowed};

    /// Whether the rule allows a record: what a handler may answer. Takes no memory.
    pub fn allows(self, item: &Record) -> bool
        ensures { result ≡ is_allowed self item.now }
    {
        let Rule::MaxValue(most) = self;
        match &item.value {
            Some(value) => value.as_str().len() as u64 <= most,
            None => true,
        }
    }
}
