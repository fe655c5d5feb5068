ghost use Rattle.std.specs.Prelude.{◌≡◌};
ghost use Rattle.dbl_model_event.specs.EventJson.{milliseconds_of};

/// A commit's time, which is in microseconds since 2000-01-01 UTC, in milliseconds since 1970-01-01
/// UTC, rounded down.
pub fn milliseconds(time: i64) -> i64
    ensures { result ≡ milliseconds_of time }
{
    time.div_euclid(1000) + 946_684_800_000
}
