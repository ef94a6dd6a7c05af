//! Laws of frames.

ghost use Rattle.std.specs.Prelude.{◌≡◌, ◌++◌, List, ℕ};
ghost use Rattle.ncc_wire.specs.declared.error.FrameError.TheVariants.{BadKind, OtherCluster, Short};
ghost use Rattle.ncc_wire.specs.Frames.{IsFrame};
ghost use Rattle.ncc_wire.specs.Laws.{CarriedAlone, FrameOrRefusal, NeverForMemory, NoneBeginsAnother, OneFrame, OneRefusal};
ghost use Rattle.ncc_wire.specs.Reading.{Refuses};
ghost use Rattle.ncc_wire.specs.Worked.{asked, cut, with_kind};

/// An envelope has one frame in a cluster, the one that is written.
pub fn one_frame()
    ensures one { OneFrame }
{}

/// Exactly the envelopes that can be carried have a frame.
pub fn carried_alone()
    ensures alone { CarriedAlone }
{}

/// No frame begins another.
pub fn none_begins_another()
    ensures none { NoneBeginsAnother }
{}

/// Bytes call for one refusal at most, and never for want of memory.
pub fn one_refusal()
    ensures one { OneRefusal }
    ensures never { NeverForMemory }
{}

/// Bytes that begin with a frame call for no refusal.
pub fn frame_or_refusal()
    ensures apart { FrameOrRefusal }
{}

/// Member 1 asks member 2 for its vote in term 1, in cluster 1: the frame; with the kind 09; its first 38 bytes; and in cluster 2.
pub fn worked_frame()
    ensures frame { IsFrame 1 asked (with_kind 1) }
    ensures kind { (rest : List ℕ) → Refuses 1 (with_kind 9 ++ rest) (BadKind 12) }
    ensures cut { Refuses 1 cut Short }
    ensures other { (rest : List ℕ) → Refuses 2 (with_kind 1 ++ rest) (OtherCluster 1) }
{}
