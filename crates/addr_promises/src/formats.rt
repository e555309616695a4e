// Formats: bytes have one meaning or one first fault, and what is written is read back.
ghost use Rattle.std.specs.Prelude.{◌≡◌, ◌<◌, ◌^◌, ◌↔◌, ◌⊎◌, ℕ, List, length, Ok, Err};
ghost use Rattle.std.specs.List.{AllByRecursion};
ghost use Rattle.addr_base.specs.declared.ids.Digest.{Digest};
ghost use Rattle.addr_cab.specs.Format.{AreBytes as AreTableBytes};
ghost use Rattle.addr_cab.specs.Lookup.{HasFault};
ghost use Rattle.addr_cab.specs.Objects.{IsCab};
ghost use Rattle.addr_cab.specs.Written.{IsCabText, ReadsBack as TableReadsBack};
ghost use Rattle.addr_cab.specs.declared.error.CabErr.{CabErr as TableFault};
ghost use Rattle.addr_cab.specs.declared.object.ObjectOut.{ObjectOut};
ghost use Rattle.addr_catalog.specs.Catalogue.{catalogue_read};
ghost use Rattle.addr_catalog.specs.declared.error.CatErr.TheVariants as catalogue;
ghost use Rattle.addr_locate.specs.PlainRows.{ArePlain, IsFirstBad, SpellOneList};
ghost use Rattle.addr_reading.specs.Gives.{IsDecided};
ghost use Rattle.addr_state.specs.Reading.{state_read};
ghost use Rattle.addr_state.specs.declared.error.StateErr.TheVariants as state;
ghost use Rattle.addr_unityfs.specs.Faults.{bundle_read};
ghost use Rattle.addr_unityfs.specs.Format.{AreBytes, IsBundle};
ghost use Rattle.addr_unityfs.specs.Written.{CanWrite, IsTyped, ReadsBack, written};
ghost use Rattle.addr_unityfs.specs.declared.bundle.Bundle.{Bundle};
ghost use Rattle.addr_unityfs.specs.declared.bundle.NodeOut.{NodeOut};
ghost use Rattle.addr_unityfs.specs.declared.error.FsErr.{FsErr};

use addr_cab::table_laws;
use addr_catalog::catalogue_laws;
use addr_locate::plain_laws;
use addr_state::state_laws;
use addr_unityfs::bundle_laws;

/// Bytes are one bundle file or have one first fault, never both, and the nodes that are written are read back.
pub fn bundle_files_are_read_back()
    ensures one { (file : List ℕ) → AreBytes file
        → ((b : Bundle) × IsBundle file b) ⊎ ((e : FsErr) × (bundle_read file ≡ Err e)) }
    ensures never { (file : List ℕ) (b : Bundle) (e : FsErr) → length file < 2 ^ 63
        → IsBundle file b → bundle_read file ≡ Err e → ⊥ }
    ensures own { (file : List ℕ) (a b : Bundle) → length file < 2 ^ 63
        → IsBundle file a → IsBundle file b → a ≡ b }
    ensures back { (player : List ℕ) (nodes : List NodeOut) → CanWrite player nodes
        → AllByRecursion IsTyped nodes → ReadsBack (written player nodes) nodes }
{
    bundle_laws();
}

/// A table and data are those of objects exactly where they are read as these, and a bundle file holds one list of objects at most,
/// and none beside a fault.
pub fn asset_tables_are_read_back()
    ensures back { (objects : List ObjectOut) (table content : List ℕ)
        → AreTableBytes table → length content < 2 ^ 64
        → (IsCabText objects table content ↔ TableReadsBack objects table content) }
    ensures one { (file : List ℕ) (b : Bundle) (name other : Digest) (objects others : List ObjectOut)
        → length file < 2 ^ 63 → IsBundle file b
        → IsCab file b name objects → IsCab file b other others → (name ≡ other) × (objects ≡ others) }
    ensures never { (file : List ℕ) (b : Bundle) (e : TableFault) (name : Digest) (objects : List ObjectOut)
        → length file < 2 ^ 63 → IsBundle file b
        → HasFault file b e → IsCab file b name objects → ⊥ }
{
    table_laws();
}

/// Bytes are a catalogue or have a first fault.
pub fn catalogues_have_one_meaning()
    ensures { (bytes : List ℕ) → IsDecided catalogue.NoMemory (catalogue_read bytes) }
{
    catalogue_laws();
}

/// Bytes are a content state or have a first fault.
pub fn content_states_have_one_meaning()
    ensures { (bytes : List ℕ) → IsDecided state.NoMemory (state_read bytes) }
{
    state_laws();
}

/// Lines in the plain form spell one list of rows and have no first bad line; other lines have one.
pub fn plain_rows_have_one_meaning()
    ensures own { (lines : List (List ℕ)) → length lines < 2 ^ 32 → SpellOneList lines }
    ensures none { (lines : List (List ℕ)) (n : ℕ) → IsFirstBad lines n → ArePlain lines → ⊥ }
    ensures one { (lines : List (List ℕ)) (n m : ℕ) → IsFirstBad lines n → IsFirstBad lines m → n ≡ m }
{
    plain_laws();
}
