//! What holds of tracers. The function does nothing; its contract is the theorem.

ghost use Rattle.race_tracer.specs.Tracing.{OtherEventsLaw};

/// Events that are no receives need not be told.
pub fn other_events_law()
    ensures { OtherEventsLaw }
{}
