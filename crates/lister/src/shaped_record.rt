// A record that has a line in a listing.
ghost use Rattle.std.specs.Prelude.{◌≡◌, IfOk};
ghost use Rattle.outcome.specs.Refused.{error_number};
ghost use Rattle.script.specs.Kinds.{kind_number};
ghost use Rattle.script.specs.Scan.{shape_fault};

use outcome::RefusalKind;
use record::Record;
use script::kind::{RecordKind, kind_of};

// A record with none of the faults 2 to 4, and its kind.
#[derive(Clone, Copy)]
pub struct ShapedRecord {
    pub kind: RecordKind,
    pub fields: Record,
    ghost faultless: { shape_fault fields ≡ 0 },
    ghost kind_of: { kind_number kind ≡ fields.kind },
}

impl ShapedRecord {
    // The record, or its fault.
    pub fn new(fields: Record) -> Result<ShapedRecord, RefusalKind>
        ensures fault { error_number result ≡ shape_fault fields }
        ensures fields { IfOk result (λ s. s.fields ≡ fields) }
    {
        let kind = script::shape_fault(fields)?;
        Ok(ShapedRecord { kind, fields })
    }

    // A record that is known to have no fault. The listing is put after it was measured, so no fault is looked for a second time.
    #[tactic(auto, using(crate::proofs::Records::kind_least, crate::proofs::Records::kind_most))]
    pub fn of(fields: Record) -> ShapedRecord
        requires { shape_fault fields ≡ 0 }
        ensures { result.fields ≡ fields }
    {
        ShapedRecord {
            kind: kind_of(fields.kind),
            fields,
        }
    }
}
