// Laws over the definitions, for callers that have bytes which no call read, or that ask what a reader will tell.
ghost use Rattle.std.specs.Prelude.{◌≡◌, ◌≢◌, ◌<◌, ◌≤◌, ◌+◌, ◌^◌, ◌↔◌, ◌++◌, ◌⊎◌, ℕ, List, All, Ok, Err, Some, length, take, map, true};
ghost use Rattle.std.specs.List.{AllByRecursion};
ghost use Rattle.addr_unityfs.specs.Spelling.{signature};
ghost use Rattle.addr_unityfs.specs.Format.{AreBytes, IsBundle};
ghost use Rattle.addr_unityfs.specs.Faults.{Head, Sections, info_end, header_read, sections_read, behind_read, bundle_read};
ghost use Rattle.addr_unityfs.specs.Written.{CanWrite, IsTyped, ReadsBack, written, written_len};
ghost use Rattle.addr_unityfs.specs.Sizes.{size_of, file_size};
ghost use Rattle.addr_unityfs.specs.Early.{early_at, fault_of, version_in, is_other_version};
ghost use Rattle.addr_unityfs.specs.declared.bundle.NodeOut.{NodeOut};
ghost use Rattle.addr_unityfs.specs.declared.bundle.Bundle.{Bundle};
ghost use Rattle.addr_unityfs.specs.declared.error.FsErr.{FsErr};
ghost use Rattle.addr_unityfs.specs.declared.error.FsErr.TheVariants.{Signature, Version, NoMemory};

/// Bytes are one bundle or have one first fault, never both and never want of memory; a bundle's nodes lie within it;
/// and what is written reads back as its nodes, and has the size that their lengths tell.
pub fn bundle_laws()
    ensures meant { (file : List ℕ) (b : Bundle) → AreBytes file → length file < 2 ^ 63
        → IsBundle file b ↔ (bundle_read file ≡ Ok b) }
    ensures one { (file : List ℕ) → AreBytes file
        → ((b : Bundle) × IsBundle file b) ⊎ ((e : FsErr) × (bundle_read file ≡ Err e)) }
    ensures never { (file : List ℕ) (b : Bundle) (e : FsErr) → length file < 2 ^ 63
        → IsBundle file b → bundle_read file ≡ Err e → ⊥ }
    ensures own { (file : List ℕ) (a b : Bundle) → length file < 2 ^ 63
        → IsBundle file a → IsBundle file b → a ≡ b }
    ensures named { (file : List ℕ) → bundle_read file ≢ Err NoMemory }
    ensures inside { (file : List ℕ) (b : Bundle) → IsBundle file b
        → All (λ n. b.start + n.offset + n.size ≤ length file) b.nodes }
    ensures back { (player : List ℕ) (nodes : List NodeOut) → CanWrite player nodes
        → AllByRecursion IsTyped nodes → ReadsBack (written player nodes) nodes }
    ensures size { (player : List ℕ) (nodes : List NodeOut)
        → (length (written player nodes) ≡ file_size (length player) (map size_of nodes))
        × (written_len player nodes ≡ file_size (length player) (map size_of nodes)) }
{}

/// A fault that is told is the first fault of each file of that length that begins with these bytes; it stays told, and
/// is told with the byte that decides it: of the signature the 8th, of the version the 12th, of the other tests on the
/// header and of the sections its last one, of the blocks info, the data and the nodes the last one of the blocks info.
pub fn early_laws()
    ensures first { (total : ℕ) (fed more : List ℕ) (e : FsErr) → early_at total fed ≡ Some e
        → length (take total fed ++ more) ≡ total → bundle_read (take total fed ++ more) ≡ Err e }
    ensures stays { (total : ℕ) (fed more : List ℕ) (e : FsErr) → early_at total fed ≡ Some e
        → early_at total (fed ++ more) ≡ Some e }
    ensures named { (total : ℕ) (fed : List ℕ) → early_at total fed ≢ Some NoMemory }
    ensures signature { (total : ℕ) (fed : List ℕ) → 8 ≤ length (take total fed)
        → take 8 (take total fed) ≢ signature → early_at total fed ≡ Some Signature }
    ensures version { (total : ℕ) (fed : List ℕ) → 12 ≤ length (take total fed)
        → take 8 (take total fed) ≡ signature → is_other_version (version_in (take total fed)) ≡ true
        → early_at total fed ≡ Some (Version (version_in (take total fed))) }
    ensures header { (total : ℕ) (fed : List ℕ) (head : Head) (end : ℕ) (e : FsErr)
        → header_read (take total fed) ≡ Ok (head, end) → sections_read total head end ≡ Err e
        → early_at total fed ≡ Some e }
    ensures info { (total : ℕ) (fed : List ℕ) (head : Head) (end : ℕ) (sections : Sections) (e : FsErr)
        → header_read (take total fed) ≡ Ok (head, end) → sections_read total head end ≡ Ok sections
        → info_end head sections ≤ length (take total fed)
        → behind_read total head sections (take total fed) ≡ Err e → early_at total fed ≡ Some e }
    ensures whole { (total : ℕ) (fed : List ℕ) → total ≤ length fed
        → early_at total fed ≡ fault_of (bundle_read (take total fed)) }
{}
