//! Laws of replicas: whatever they meet of true streams, they follow the stream that they name.
ghost use Rattle.true_streams.specs.Law.{EachStepFollows, ReplicasFollow};

/// A new replica that met any pieces and snapshots of true streams, in any order and number, follows the stream that it names.
pub fn replicas_follow_true_streams()
    ensures { ReplicasFollow }
{}

/// One that follows a stream follows one, perhaps another, after whatever it meets next.
pub fn replicas_stay_on_true_streams()
    ensures { EachStepFollows }
{}
