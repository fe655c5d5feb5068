ghost use Rattle.std.specs.Prelude.{◌≡◌, MatchOption};
ghost use Rattle.dbl_cli.specs.Commands.{name_of};
ghost use Rattle.dbl_cli.specs.Verbs.{named_verbs, first_verb};

/// A command, named by the first argument.
#[derive(Clone, Copy)]
pub enum Verb {
    Init,
    Topics,
    Offsets,
    Compact,
    Capture,
    Resume,
    Apply,
    Replay,
    Gen,
}

/// The name of a command.
#[derive(Clone, Copy)]
struct NamedVerb {
    name: &'static str,
    verb: Verb,
}

static VERBS: [NamedVerb; 9] = [
    NamedVerb {
        name: "init",
        verb: Verb::Init,
    },
    NamedVerb {
        name: "topics",
        verb: Verb::Topics,
    },
    NamedVerb {
        name: "offsets",
        verb: Verb::Offsets,
    },
    NamedVerb {
        name: "compact",
        verb: Verb::Compact,
    },
    NamedVerb {
        name: "capture",
        verb: Verb::Capture,
    },
    NamedVerb {
        name: "resume",
        verb: Verb::Resume,
    },
    NamedVerb {
        name: "apply",
        verb: Verb::Apply,
    },
    NamedVerb {
        name: "replay",
        verb: Verb::Replay,
    },
    NamedVerb {
        name: "gen",
        verb: Verb::Gen,
    },
];

/// The first of these commands that has the name.
fn first_verb(verbs: &[NamedVerb], word: &str) -> Option<Verb>
    ensures { result ≡ first_verb (named_verbs verbs.now) word.now }
{
    for named in verbs {
        if word == named.name {
            return Some(named.verb);
        }
    }
    None
}

/// The command with this name.
pub fn verb_of(word: &str) -> Option<Verb>
    ensures { MatchOption result ((verb : _) → name_of verb ≡ word.now → ⊥)
        (λ verb. name_of verb ≡ word.now) }
{
    first_verb(VERBS.as_slice(), word)
}
