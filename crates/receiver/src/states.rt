// Questions about a receiver's end, stated length and deadline.
ghost use Rattle.std.specs.Prelude.{◌≡◌};
ghost use Rattle.receiver.specs.Record.{states_below, states_above, clash as clash_of, past_end, other_end, late as late_of, due as due_of};
ghost use Rattle.tsar.specs.Kinds.{states_other};

// A stated length that is another than n.
pub fn states_other(message_length: Option<u16>, n: usize) -> bool
    ensures { result ≡ states_other message_length n }
{
    message_length.is_some_and(|m| usize::from(m) != n)
}

pub fn states_below(message_length: Option<u16>, n: usize) -> bool
    ensures { result ≡ states_below message_length n }
{
    message_length.is_some_and(|m| usize::from(m) < n)
}

pub fn states_above(message_length: Option<u16>, n: usize) -> bool
    ensures { result ≡ states_above message_length n }
{
    message_length.is_some_and(|m| n < usize::from(m))
}

// Two stated lengths that differ, where both are stated.
pub fn clash(a: Option<u16>, b: Option<u16>) -> bool
    ensures { result ≡ clash_of a b }
{
    b.is_some_and(|n| states_other(a, usize::from(n)))
}

pub fn past_end(end: Option<u8>, sequence: u8) -> bool
    ensures { result ≡ past_end end sequence }
{
    end.is_some_and(|e| e < sequence)
}

pub fn other_end(end: Option<u8>, sequence: u8) -> bool
    ensures { result ≡ other_end end sequence }
{
    end.is_some_and(|e| e != sequence)
}

// The reading is past the deadline.
pub fn late(deadline: Option<u64>, reading: u64) -> bool
    ensures { result ≡ late_of deadline reading }
{
    deadline.is_some_and(|d| d < reading)
}

// The reading is at or past the deadline.
pub fn due(deadline: Option<u64>, reading: u64) -> bool
    ensures { result ≡ due_of deadline reading }
{
    deadline.is_some_and(|d| d <= reading)
}
