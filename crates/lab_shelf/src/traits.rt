//! What a program asks of its files and of a stream that it writes to.
ghost use Rattle.std.specs.Prelude.{◌≡◌, ◌≢◌, ◌≤◌, ◌++◌, ℕ, List, Bool, Option, None, Some, Err, IsErrOf, IfOk, IfSome, OnOk, OnErr, vec_len};
ghost use Rattle.std.specs.Option.{option_map};
ghost use Rattle.lab_shelf.specs.Files.{Files, bytes_under, with_file, with_change, with_first_bytes, piece, IsPartWritten, IsPartAppended, IsPartFinished, HasFileNamed, HasRoom, TookPart};
ghost use Rattle.lab_shelf.specs.Counts.{IsFaultCount, IsAsForeseen};

use crate::fault::ShelfFault;
use std::alloc::Global;

/// Files by name. A contract sees a finite map from names to bytes, where it is known, and
/// two counts of faults: of fetches that failed, and of writes that failed. A count rises exactly
/// where such a call answers `Failed`, and stays at `u64::MAX`. A reliable shelf stays reliable: its fetches, appends and
/// finishes fail only for names that it doesn't hold, and its stores and begins never fail, but for
/// want of memory.
pub trait Shelf {
    // The files, where they are known.
    ghost files: { Self → Option Files };

    // How many fetches failed.
    ghost fetch_faults: { Self → ℕ };

    // How many stores, begins, appends and finishes failed.
    ghost write_faults: { Self → ℕ };

    // Whether the next fetch of a name works, where that is known.
    ghost fetch_works: { Self → List ℕ → Option Bool } = { λ _ _. None };

    // Whether the next store or begin works, where that is known.
    ghost store_works: { Self → Option Bool } = { λ _. None };

    // Whether the next append to a name or finish of it works, where that is known.
    ghost change_works: { Self → List ℕ → Option Bool } = { λ _ _. None };

    // Whether its calls fail only for a name that it doesn't hold, or for want of memory.
    ghost is_reliable: { Self → Type 0 } = { λ _. ⊥ };

    /// Gives the bytes of the file `name` from the byte `from` on: `most` of them, or as many as
    /// there are. `Failed` comes where the file can't be read, and `fetch_faults` counts it;
    /// `Memory` where there is no room for the bytes. The files stay as they are. A reliable shelf
    /// whose files are known answers `Failed` only where it holds none of this name.
    fn fetch(
        &mut self,
        alloc: Global,
        name: &[u8],
        from: u64,
        most: u64,
    ) -> Result<Vec<u8>, ShelfFault>
        ensures most { IfOk result (λ bytes. vec_len bytes ≤ most) }
        ensures piece { IfOk result (λ bytes. IfSome (files self.old)
            (λ held_files. piece held_files name.now from most ≡ Some bytes.items)) }
        ensures files { files self.new ≡ files self.old }
        ensures faults { IsFaultCount result (fetch_faults self.old) (fetch_faults self.new) }
        ensures write_faults { write_faults self.new ≡ write_faults self.old }
        ensures foreseen { IsAsForeseen result (fetch_works self.old name.now) }
        ensures reliable { is_reliable self.old → is_reliable self.new }
        ensures missing { is_reliable self.old → IsErrOf result ShelfFault.Failed
            → IfSome (files self.old) (λ held_files. bytes_under held_files name.now ≡ None) };

    /// Makes the file `name` hold exactly `bytes`. After an error it holds a prefix of them, or is
    /// as it was. `Failed` comes where the file can't be written, and `write_faults` counts it;
    /// `Memory` where there is no room for the bytes. No other file changes. A reliable shelf never
    /// answers `Failed`.
    fn store(&mut self, name: &[u8], bytes: &[u8]) -> Result<(), ShelfFault>
        ensures ok { OnOk result (files self.new ≡ option_map
            (λ held_files. with_file held_files name.now bytes.now) (files self.old)) }
        ensures err { OnErr result
            (IsPartWritten (files self.old) (files self.new) name.now bytes.now) }
        ensures faults { IsFaultCount result (write_faults self.old) (write_faults self.new) }
        ensures fetch_faults { fetch_faults self.new ≡ fetch_faults self.old }
        ensures foreseen { IsAsForeseen result (store_works self.old) }
        ensures reliable { is_reliable self.old → is_reliable self.new }
        ensures stores { is_reliable self.old → result ≢ Err ShelfFault.Failed };

    /// Begins the file `name`: makes it hold exactly the bytes of `head`, to which `append` adds and
    /// which `finish` replaces. Its answers and what an error leaves are those of `store`.
    fn begin(&mut self, name: &[u8], head: &[u8]) -> Result<(), ShelfFault>
        ensures ok { OnOk result (files self.new ≡ option_map
            (λ held_files. with_file held_files name.now head.now) (files self.old)) }
        ensures err { OnErr result
            (IsPartWritten (files self.old) (files self.new) name.now head.now) }
        ensures faults { IsFaultCount result (write_faults self.old) (write_faults self.new) }
        ensures fetch_faults { fetch_faults self.new ≡ fetch_faults self.old }
        ensures foreseen { IsAsForeseen result (store_works self.old) }
        ensures reliable { is_reliable self.old → is_reliable self.new }
        ensures begins { is_reliable self.old → result ≢ Err ShelfFault.Failed };

    /// Adds `bytes` at the end of the file `name`, which isn't read. After an error it holds the
    /// first bytes of what it would hold, or is as it was. `Failed` comes where there is no such
    /// file or it can't be written, and `write_faults` counts it; `Memory` where there is no room
    /// for the bytes. No other file changes. A reliable shelf whose files are known answers `Failed`
    /// only where it holds none of this name.
    fn append(&mut self, name: &[u8], bytes: &[u8]) -> Result<(), ShelfFault>
        ensures held { OnOk result (HasFileNamed (files self.old) name.now) }
        ensures ok { OnOk result (files self.new ≡ option_map
            (λ held_files. with_change (λ content. content ++ bytes.now) held_files name.now)
            (files self.old)) }
        ensures err { OnErr result
            (IsPartAppended (files self.old) (files self.new) name.now bytes.now) }
        ensures faults { IsFaultCount result (write_faults self.old) (write_faults self.new) }
        ensures fetch_faults { fetch_faults self.new ≡ fetch_faults self.old }
        ensures foreseen { IsAsForeseen result (change_works self.old name.now) }
        ensures reliable { is_reliable self.old → is_reliable self.new }
        ensures missing { is_reliable self.old → IsErrOf result ShelfFault.Failed
            → IfSome (files self.old) (λ held_files. bytes_under held_files name.now ≡ None) };

    /// Finishes the file `name`: replaces its first bytes, which are there, by as many of `head`. The
    /// others aren't touched, and none is read. After an error some first bytes may be those of
    /// `head`, and all others are as they were. `Failed` comes where there is no such file or it
    /// can't be written, and `write_faults` counts it. No other file changes. A reliable shelf whose
    /// files are known answers `Failed` only where it holds none of this name.
    fn finish(&mut self, name: &[u8], head: &[u8]) -> Result<(), ShelfFault>
        requires room { HasRoom (files self.old) name.now head.now }
        ensures held { OnOk result (HasFileNamed (files self.old) name.now) }
        ensures ok { OnOk result (files self.new ≡ option_map
            (λ held_files. with_change (with_first_bytes head.now) held_files name.now)
            (files self.old)) }
        ensures err { OnErr result
            (IsPartFinished (files self.old) (files self.new) name.now head.now) }
        ensures faults { IsFaultCount result (write_faults self.old) (write_faults self.new) }
        ensures fetch_faults { fetch_faults self.new ≡ fetch_faults self.old }
        ensures foreseen { IsAsForeseen result (change_works self.old name.now) }
        ensures reliable { is_reliable self.old → is_reliable self.new }
        ensures missing { is_reliable self.old → IsErrOf result ShelfFault.Failed
            → IfSome (files self.old) (λ held_files. bytes_under held_files name.now ≡ None) };
}

/// A stream that takes bytes. A contract sees the bytes that it took, where they are known,
/// and a count of faults, which rises exactly where a put answers `Failed` and stays at `u64::MAX`.
/// A reliable sink stays reliable, and its puts never fail, but for want of memory.
pub trait Sink {
    // The bytes that were taken, in order, where they are known.
    ghost taken: { Self → Option (List ℕ) };

    // How many puts failed.
    ghost faults: { Self → ℕ };

    // Whether the next put works, where that is known.
    ghost put_works: { Self → Option Bool } = { λ _. None };

    // Whether its puts fail only for want of memory.
    ghost is_reliable: { Self → Type 0 } = { λ _. ⊥ };

    /// Takes all of `bytes`. After an error it took a prefix of them. `Failed` comes where the
    /// stream can't be written, or takes nothing of a piece that isn't empty, and `faults` counts
    /// it; `Memory` where there is no room for the bytes. A reliable sink never answers `Failed`.
    fn put(&mut self, bytes: &[u8]) -> Result<(), ShelfFault>
        ensures ok { OnOk result
            (taken self.new ≡ option_map (λ before. before ++ bytes.now) (taken self.old)) }
        ensures err { OnErr result (TookPart (taken self.old) (taken self.new) bytes.now) }
        ensures faults { IsFaultCount result (faults self.old) (faults self.new) }
        ensures foreseen { IsAsForeseen result (put_works self.old) }
        ensures reliable { is_reliable self.old → is_reliable self.new }
        ensures puts { is_reliable self.old → result ≢ Err ShelfFault.Failed };
}
