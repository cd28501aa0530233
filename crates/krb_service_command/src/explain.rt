//! What `explain` makes of a text that spells a message.

ghost use Rattle.std.specs.Prelude.{IfSome};
ghost use Rattle.krb_service_command.specs.Explaining.{IsExplainedText, IsUnexplained, explain_reads};

use crate::explain_fault::ExplainFault;
use crate::text::read_message;
use krb_explain::explain;
use krb_file::Source;
use krb_file_commands::Product;
use std::alloc::Global;

/// `explain` makes a page about the message that a text spells (`krb_explain`).
#[derive(Clone, Copy)]
pub struct Explain;

impl Product for Explain {
    type Fault = ExplainFault;

    ghost makes = { λ _ from page. IfSome from (λ text. IsExplainedText text page) };

    ghost faults = { λ _ text fault. IsUnexplained text fault };

    ghost failed_reads = { explain_reads };

    fn make<S: Source>(&self, alloc: Global, source: &mut S) -> Result<Vec<u8>, ExplainFault> {
        let bytes = read_message(alloc, source)?;
        let page = explain(alloc, &bytes)?;
        Ok(page.into_bytes())
    }
}
