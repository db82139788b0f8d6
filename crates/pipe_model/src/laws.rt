ghost use Rattle.std.specs.Prelude.{◌≡◌, ◌≤◌, List, [], length, true};
ghost use Rattle.pipe_model.specs.declared.pipe.PipeStep.{PipeStep};
ghost use Rattle.pipe_model.specs.Pipe.{opening};
ghost use Rattle.octet_text.specs.Prefix.{IsPrefix};
ghost use Rattle.pipe_model.specs.Runs.{after_steps, written_by, read_by, latest_received};

/// A law: after every list of steps, what was read is a prefix of what was written.
pub fn read_is_a_prefix()
    ensures { (steps : List PipeStep) →
        IsPrefix (read_by steps opening) (written_by steps opening) }
{}

/// A law: after every list of steps, the acknowledged bytes had been received when they were acknowledged, and
/// the received ones had been written.
pub fn acknowledged_was_received()
    ensures received { (steps : List PipeStep) →
        (after_steps steps opening).acked ≤ latest_received steps opening 0 }
    ensures written { (steps : List PipeStep) →
        latest_received steps opening 0 ≤ length (written_by steps opening) }
{}

/// A law: once the end was told, all that was written had been read, and whatever steps follow, nothing more is
/// read or written.
pub fn end_is_told_at_the_whole()
    ensures whole { (steps : List PipeStep) → (after_steps steps opening).told_end ≡ true →
        read_by steps opening ≡ written_by steps opening }
    ensures nothing_read { (steps more : List PipeStep) → (after_steps steps opening).told_end ≡
        true →
        read_by more (after_steps steps opening) ≡ [] }
    ensures nothing_written { (steps more : List PipeStep) → (after_steps steps opening).told_end ≡
        true →
        written_by more (after_steps steps opening) ≡ [] }
{}
