ghost use Rattle.std.specs.Prelude.{◌≡◌, ◌≢◌, ℕ, ◌<◌, ◌++◌, List, [], ◌∷◌, length};
ghost use Rattle.std.specs.Prelude.{Bool, false, IsTrue, IsErr, OnOk, OnErr};
ghost use Rattle.dbl_base.specs.Streams.{FailsOnlyIfCounted};
ghost use Rattle.dbl_record.specs.declared.record.Record.{Record};
ghost use Rattle.dbl_record.specs.Cuts.{IsHandful};
ghost use Rattle.dbl_record.specs.Groups.{group_form};
ghost use Rattle.dbl_topic.specs.Sinks.{IsLeftByPut, told_length, group_limit};

use crate::SinkError;
use dbl_record::Record;

/// The maximum length in bytes of an encoded group that a sink accepts: 2^28.
pub const GROUP_LIMIT: u64 = 1 << 28;

/// A destination of records, which are appended group by group.
pub trait Sink {
    /// The sink is usable and its groups are known to be these; joined they are its records.
    ghost holds: { Self → List (List Record) → Type 0 };

    /// The groups that a crash now may leave.
    ghost may_leave: { Self → List (List Record) → Type 0 };

    /// A property of everything that a crash now may leave: for a topic log, that it is one of some
    /// groups.
    ghost leaves_groups: { Self → Type 0 };

    /// The second sink extends the first one: what no append undoes. In a topic log the unset
    /// commit byte never moves back, and the disk grows to at most 2^30 bytes past it.
    ghost comes_of: { Self → Self → Type 0 };

    /// Whether the sink is usable.
    ghost is_live: { Self → Bool };

    /// The number of faults; it saturates at 2^64 - 1.
    ghost faults: { Self → ℕ };

    /// What is known of a sink whose last append failed with `Failed`, and of that append's group:
    /// for a sink that can refuse a record, which one it refused.
    ghost fails_at: { Self → List Record → Type 0 };

    /// Appends the group. After `Failed` some first records of it may have been appended, as a
    /// group of their own, and the sink isn't live; after the other errors nothing was appended. A
    /// group that is too long may be refused with another error that comes first.
    fn put(&mut self, group: &Vec<Record>) -> Result<(), SinkError>
        requires live { IsTrue (is_live self.old) }
        requires handful { IsHandful group.now.items }
        ensures added { (groups : List (List Record)) → holds self.old groups →
            OnOk result (holds self.new (groups ++ group.now.items ∷ [])) }
        ensures kept { (groups : List (List Record)) → holds self.old groups →
            OnErr result (result ≢ Err SinkError.Failed → holds self.new groups) }
        ensures left { (groups left : List (List Record)) → holds self.old groups →
            may_leave self.new left → IsLeftByPut groups group.now.items left }
        ensures whole { (groups : List (List Record)) → holds self.old groups →
            leaves_groups self.new }
        ensures some { (groups : List (List Record)) → holds self.old groups →
            (left : List (List Record)) × may_leave self.new left }
        ensures comes { comes_of self.old self.new }
        ensures live { result ≢ Err SinkError.Failed → IsTrue (is_live self.new) }
        ensures dead { result ≡ Err SinkError.Failed → is_live self.new ≡ false }
        ensures too_long { (len : ℕ) → result ≡ Err (SinkError.TooLong len) →
            (group_limit < length (group_form group.now.items)) ×
            (len ≡ told_length group.now.items) }
        ensures long { group_limit < length (group_form group.now.items) → IsErr result }
        ensures cause { FailsOnlyIfCounted (result ≡ Err SinkError.Failed)
            (faults self.old) (faults self.new) }
        ensures failed { result ≡ Err SinkError.Failed → fails_at self.new group.now.items };

    /// A crash of a sink with known groups leaves exactly those.
    ghost only: { (sink : Self) (groups left : List (List Record)) → holds sink groups
        → may_leave sink left → left ≡ groups };

    ghost may: { (sink : Self) (groups : List (List Record)) → holds sink groups
        → may_leave sink groups };

    ghost whole: { (sink : Self) (groups : List (List Record)) → holds sink groups
        → leaves_groups sink };

    /// A sink extends itself, and extension is transitive.
    ghost comes_self: { (sink : Self) → comes_of sink sink };

    ghost comes_on: { (first second third : Self) → comes_of first second → comes_of second third
        → comes_of first third };
}
