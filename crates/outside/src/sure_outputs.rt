ghost use Rattle.std.specs.Prelude.{◌≡◌, ℕ, List, [], None, Some, IsSome, IfOk, OnOk, OnErr, option_map};
ghost use Rattle.std.specs.Bool.{OnTrue, OnFalse};
ghost use Rattle.std.proofs.Props.{props};
ghost use Rattle.outside.specs.SlotState.{paths_of, IsFirst};

use crate::slots::Slots;
use crate::traits::{Failed, Outputs};
use basics::{Name, NoMemory, Seq};
use std::alloc::Global;

/// Files in memory, of which each path may hold a number of bytes, and which fail only for want of that
/// room.
#[derive(Drop)]
pub struct SureOutputs {
    slots: Slots,
    current: Option<usize>,
    faults: u64,
    ghost first: { IsFirst (paths_of slots) current } by { Prim.hlevel props },
}

impl SureOutputs {
    ghost use Rattle.outside.specs.Counting.{one_more};
    ghost use Rattle.outside.specs.Files.{add};
    ghost use Rattle.outside.specs.FirstAt.{first_room, no_files};
    ghost use Rattle.outside.specs.Stored.{FitsAt, ExceedsAt, fitting_at};
    ghost use Rattle.outside.specs.SureOutputs.{files_of, room_of, begun_of, faults_of};

    /// Room for files with these paths and up to these many bytes, all of which is taken now. Of two
    /// rooms with one path the first counts.
    pub fn new(alloc: Global, rooms: Seq<(Name, u64)>) -> Result<SureOutputs, NoMemory>
        ensures files { IfOk result (λ outputs. files_of outputs ≡ no_files) }
        ensures room { IfOk result (λ outputs. room_of outputs ≡ first_room rooms) }
        ensures begun { IfOk result (λ outputs. begun_of outputs ≡ None) }
        ensures faults { IfOk result (λ outputs. faults_of outputs ≡ 0) }
    {
        let slots = Slots::new(alloc, rooms)?;
        Ok(SureOutputs {
            slots,
            current: None,
            faults: 0,
        })
    }

    /// What the path has, None exactly where there is no such file. Takes no memory.
    pub fn held(&self, path: &str) -> Option<&[u8]>
        ensures { option_map (λ bytes. bytes.now) result ≡ files_of self.now path.now }
    {
        self.slots.held(path)
    }

    /// Adds the start of the piece that fits at the path that is begun, and answers whether it is the
    /// whole piece.
    fn add(&mut self, piece: &[u8]) -> bool
        requires { IsSome (begun_of self.old) }
        ensures fits { OnTrue result (FitsAt (room_of self.old) (files_of self.old) (begun_of self.old) piece.now) }
        ensures full { OnFalse result (ExceedsAt (room_of self.old) (files_of self.old) (begun_of self.old) piece.now) }
        ensures whole { OnTrue result (files_of self.new ≡ add (files_of self.old) (begun_of self.old) piece.now) }
        ensures added { files_of self.new ≡ add (files_of self.old) (begun_of self.old) (fitting_at (room_of self.old) (files_of self.old) (begun_of self.old) piece.now) }
        ensures begun { begun_of self.new ≡ begun_of self.old }
        ensures room { room_of self.new ≡ room_of self.old }
        ensures faults { faults_of self.new ≡ faults_of self.old }
    {
        match self.current {
            Some(index) => self.slots.add(index, piece),
            None => unreachable!(),
        }
    }

    /// Adds the start of the piece that fits at the path that is begun, and counts a fault.
    pub(crate) fn cut_short(&mut self, piece: &[u8])
        requires { IsSome (begun_of self.old) }
        ensures added { files_of self.new ≡ add (files_of self.old) (begun_of self.old) (fitting_at (room_of self.old) (files_of self.old) (begun_of self.old) piece.now) }
        ensures begun { begun_of self.new ≡ begun_of self.old }
        ensures room { room_of self.new ≡ room_of self.old }
        ensures counted { faults_of self.new ≡ one_more (faults_of self.old) }
    {
        let _ = self.add(piece);
        self.faults = self.faults.saturating_add(1);
    }

    /// Ends the path that is begun, and counts a fault.
    pub(crate) fn fail_begin(&mut self)
        ensures files { files_of self.new ≡ files_of self.old }
        ensures begun { begun_of self.new ≡ None }
        ensures room { room_of self.new ≡ room_of self.old }
        ensures counted { faults_of self.new ≡ one_more (faults_of self.old) }
    {
        self.current = None;
        self.faults = self.faults.saturating_add(1);
    }
}

impl Outputs for SureOutputs {
    ghost use Rattle.outside.specs.Counting.{count_after};
    ghost use Rattle.outside.specs.Files.{put, add, IsPrefix};
    ghost use Rattle.outside.specs.Stored.{FitsAt, ExceedsAt, fitting_at};
    ghost use Rattle.outside.specs.SureOutputs.{files_of, room_of, begun_of, faults_of};

    ghost state = { λ outputs. record { tells = Unit {0}; files = files_of outputs; begun = begun_of outputs; faults = faults_of outputs; is_sure = Unit {0}; room = room_of outputs } };

    fn begin(&mut self, path: &str) -> Result<(), Failed>
        ensures has_room { OnOk result (IsSome (room_of self.old path.now)) }
        ensures no_room { OnErr result (room_of self.old path.now ≡ None) }
        ensures ok { OnOk result (files_of self.new ≡ put (files_of self.old) path.now []) }
        ensures err { OnErr result (files_of self.new ≡ files_of self.old) }
        ensures path { OnOk result (begun_of self.new ≡ Some path.now) }
        ensures ended { OnErr result (begun_of self.new ≡ None) }
        ensures counted { faults_of self.new ≡ count_after (faults_of self.old) result }
        ensures room { room_of self.new ≡ room_of self.old }
    {
        let Some(index) = self.slots.begin(path) else {
            self.fail_begin();
            return Err(Failed);
        };
        self.current = Some(index);
        Ok(())
    }

    fn append(&mut self, bytes: &[u8]) -> Result<(), Failed>
        requires { IsSome (begun_of self.old) }
        ensures fits { OnOk result (FitsAt (room_of self.old) (files_of self.old) (begun_of self.old) bytes.now) }
        ensures full { OnErr result (ExceedsAt (room_of self.old) (files_of self.old) (begun_of self.old) bytes.now) }
        ensures ok { OnOk result (files_of self.new ≡ add (files_of self.old) (begun_of self.old) bytes.now) }
        ensures cut { OnErr result (files_of self.new ≡ add (files_of self.old) (begun_of self.old) (fitting_at (room_of self.old) (files_of self.old) (begun_of self.old) bytes.now)) }
        ensures err { OnErr result ((prefix : List ℕ) × IsPrefix prefix bytes.now × (files_of self.new ≡ add (files_of self.old) (begun_of self.old) prefix)) }
        ensures begun { begun_of self.new ≡ begun_of self.old }
        ensures counted { faults_of self.new ≡ count_after (faults_of self.old) result }
        ensures room { room_of self.new ≡ room_of self.old }
    {
        if self.add(bytes) {
            return Ok(());
        }
        self.faults = self.faults.saturating_add(1);
        Err(Failed)
    }

    fn end(&mut self)
        ensures files { files_of self.new ≡ files_of self.old }
        ensures begun { begun_of self.new ≡ None }
        ensures room { room_of self.new ≡ room_of self.old }
        ensures faults { faults_of self.new ≡ faults_of self.old }
    {
        self.current = None;
    }
}
