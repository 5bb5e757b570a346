//! What a recorder's buffers tell of its live machine.

ghost use Rattle.tm_recorders.specs.Recorders.{TailsAreLive, CheckpointsAreLive, PointsAreLive};

/// What a recorder has kept leads to its live machine: its tail is the machine's, and each task comes to where
/// it stands from each kept checkpoint with all data entries since, and from each accepted point.
pub fn recorders_replay_to_live()
    ensures tails { TailsAreLive }
    ensures checkpoints { CheckpointsAreLive }
    ensures points { PointsAreLive }
{}
