//! What holds of what uploads say.

ghost use Rattle.std.specs.Prelude.{◌≡◌, ◌++◌, List, ℕ};
ghost use Rattle.std.specs.List.{All};
ghost use Rattle.jc_base.specs.declared.limits.Limits.{Limits};
ghost use Rattle.jc_base.specs.LogEntry.{IsEntry, LogEntry};
ghost use Rattle.jc_base.specs.Reading.{Reading};
ghost use Rattle.jc_export.specs.Cut.{joined};
ghost use Rattle.jc_upload.specs.declared.head.Kind.TheVariants.{Export, File};
ghost use Rattle.jc_upload.specs.Front.{CutsBy, CutsOfFile};
ghost use Rattle.jc_upload.specs.Head.{IsHead, head_text};
ghost use Rattle.jc_upload.specs.Says.{IsInParts, Says};

use crate::{UploadHead, one_head};

/// No upload says two things. Does nothing.
pub fn one_saying()
    ensures { (limits : Limits) (upload : List ℕ) (r s : Reading) →
        Says limits upload r → Says limits upload s → r ≡ s }
{
    one_head();
    jc_export::one_reading();
    jc_file::one_reading();
}

/// What a beginning of an upload says, wherever it is cut: of an upload of entries the first of them, or all or a fault
/// if it is to be whole, and of a file that reads without a fault, and needn't be whole, all of its entries or none. Does
/// nothing.
pub fn fronts_of_uploads()
    ensures export { (head : UploadHead) (entries : List LogEntry) → IsHead head → head.kind ≡ Export
        → All IsEntry entries → CutsBy head.version entries (head_text head ++ joined entries) }
    ensures file { (head : UploadHead) (file : List ℕ) → IsHead head → IsInParts head.version → head.kind ≡ File
        → CutsOfFile file (head_text head ++ file) }
{
    one_head();
    jc_export::canonical_texts_read_back();
    jc_file::one_reading();
    jc_file::fronts_of_files();
}
