ghost use Rattle.std.specs.Prelude.{◌≡◌};
ghost use Rattle.std.specs.Ordering.{partial_le};
ghost use Rattle.mirror.specs.Record.{is_at_most, fields_in_range};

use report::fields::Fields;

/// A record of a report: where it begins, the door it is of, and the fields that it has.
#[derive(Clone, Copy, PartialEq, Eq)]
pub struct Record {
    pub offset: usize,
    pub door: usize,
    pub fields: Fields,
}

fn is_within<V: PartialOrd + Copy>(value: Option<V>, most: V) -> bool
    ensures { result ≡ is_at_most (partial_le V.partial_cmp) value most }
{
    value.is_none_or(|v| v <= most)
}

/// Whether each field that is there is at most its limit.
#[tactic(auto, using(crate::proofs::Limits::at_most_is), unfolding(crate::specs::Record::fields_in_range))]
pub(crate) fn are_within(fields: &Fields) -> bool
    ensures { result ≡ fields_in_range fields.now }
{
    // Each limit stands beside its field: a table of them would hold values of two types.
    is_within(fields.present_value, 3)
        && is_within(fields.status_flags, 15)
        && is_within(fields.door_alarm_state, 8)
        && is_within(fields.door_status, 2)
        && is_within(fields.lock_status, 3)
        && is_within(fields.secured_status, 2)
        && is_within(fields.output, 1)
        && is_within(fields.released_tenths, 2_000_000_000)
}
