ghost use Rattle.std.specs.Prelude.{◌≡◌, bytes_eq};
ghost use Rattle.dbl_cli.specs.Items.{has_value};
ghost use Rattle.dbl_cli.specs.Names.{all_named};
ghost use Rattle.dbl_cli.specs.Commands.{names_of, least_of, most_of};

use crate::verbs::Verb;

/// The name of a flag, or of an option, which takes a value.
#[derive(Clone, Copy)]
pub struct Name {
    pub text: &'static str,
    pub has_value: bool,
}

static NONE: [Name; 0] = [];

static CAPTURE: [Name; 7] = [
    Name {
        text: "prefix",
        has_value: true,
    },
    Name {
        text: "db",
        has_value: true,
    },
    Name {
        text: "placeholder",
        has_value: true,
    },
    Name {
        text: "chunk",
        has_value: true,
    },
    Name {
        text: "every",
        has_value: true,
    },
    Name {
        text: "messages",
        has_value: true,
    },
    Name {
        text: "max-value",
        has_value: true,
    },
];

static RESUME: [Name; 4] = [
    Name {
        text: "chunk",
        has_value: true,
    },
    Name {
        text: "every",
        has_value: true,
    },
    Name {
        text: "messages",
        has_value: true,
    },
    Name {
        text: "max-value",
        has_value: true,
    },
];

static APPLY: [Name; 2] = [
    Name {
        text: "lines",
        has_value: false,
    },
    Name {
        text: "placeholder",
        has_value: true,
    },
];

static REPLAY: [Name; 6] = [
    Name {
        text: "prefix",
        has_value: true,
    },
    Name {
        text: "db",
        has_value: true,
    },
    Name {
        text: "placeholder",
        has_value: true,
    },
    Name {
        text: "raw",
        has_value: false,
    },
    Name {
        text: "stream",
        has_value: false,
    },
    Name {
        text: "mask",
        has_value: true,
    },
];

static GEN: [Name; 3] = [
    Name {
        text: "rows",
        has_value: true,
    },
    Name {
        text: "groups",
        has_value: true,
    },
    Name {
        text: "run",
        has_value: false,
    },
];

/// The flags and options of a command.
pub fn names_of(verb: Verb) -> &'static [Name]
    ensures { all_named result.now ≡ names_of verb }
{
    match verb {
        Verb::Init | Verb::Topics | Verb::Offsets | Verb::Compact => NONE.as_slice(),
        Verb::Capture => CAPTURE.as_slice(),
        Verb::Resume => RESUME.as_slice(),
        Verb::Apply => APPLY.as_slice(),
        Verb::Replay => REPLAY.as_slice(),
        Verb::Gen => GEN.as_slice(),
    }
}

/// The minimum number of positional arguments of a command.
pub fn least_of(verb: Verb) -> usize
    ensures { result ≡ least_of verb }
{
    match verb {
        Verb::Gen => 1,
        _ => 0,
    }
}

/// The maximum number of positional arguments of a command.
pub fn most_of(verb: Verb) -> usize
    ensures { result ≡ most_of verb }
{
    match verb {
        Verb::Capture | Verb::Replay => 64,
        Verb::Gen => 1,
        _ => 0,
    }
}

fn is_name(name: &Name, text: &[u8]) -> bool
    ensures { result ≡ bytes_eq name.now.text.now text.now }
{
    name.text.as_bytes() == text
}

/// Whether the flag or option of this name takes a value, if there is one.
pub fn has_value(names: &[Name], text: &[u8]) -> Option<bool>
    ensures { result ≡ has_value (all_named names.now) text.now }
{
    for name in names {
        if is_name(name, text) {
            return Some(name.has_value);
        }
    }
    None
}
