// What holds of all bytes, so that reading has one right answer. Nothing runs.
ghost use Rattle.std.specs.Prelude.{◌≡◌, ℕ, List, Ok, Err};
ghost use Rattle.addr_reading.specs.Gives.{IsDecided};
ghost use Rattle.addr_catalog_json.specs.Document.{document_read};
ghost use Rattle.addr_catalog_json.specs.declared.document.Document.{Document as Whole};
ghost use Rattle.addr_catalog_json.specs.declared.error.DocErr.{DocErr as Fault};
ghost use Rattle.addr_catalog_json.specs.declared.error.DocErr.TheVariants as faults;

/// Bytes are a document or have a first fault, and never both.
pub fn document_laws()
    ensures either { (bytes : List ℕ) → IsDecided faults.NoMemory (document_read bytes) }
    ensures apart { (bytes : List ℕ) (d : Whole) (e : Fault) → document_read bytes ≡ Ok d
        → document_read bytes ≡ Err e → ⊥ }
{}
