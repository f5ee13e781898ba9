//! The whole document.
ghost use Rattle.std.specs.Prelude.{◌≡◌};
ghost use Rattle.serde_json.specs.View.{view};
ghost use Rattle.typed_values.specs.Shape.{Gives};
ghost use Rattle.certificate.specs.Document.{document_meant};

use crate::reads::{expect_only, needed};
use crate::written::WrittenDocument;
use serde_json::Value;
use std::alloc::Global;
use typed_values::Missing;

/// A document as it is written. Its version is 2, or 1, which was the one before.
pub fn read_document(alloc: Global, value: &Value) -> Result<WrittenDocument, Missing>
    ensures { Gives (λ d. d) result (document_meant (view value.now)) }
{
    expect_only(value, &["version", "entries"])?;
    let version: u64 = needed(alloc, value, "version")?;
    let is_old = version == 1;
    if !is_old && version != 2 {
        return Err(Missing::Nothing);
    }
    let entries = needed(alloc, value, "entries")?;
    Ok(WrittenDocument { is_old, entries })
}
