//! The run of a request.
ghost use Rattle.std.specs.Prelude.{IfOk};
ghost use Rattle.requests.specs.Connected.{Ends};
ghost use Rattle.requests.specs.Views.{line_notes};

use crate::connections::Connections;
use crate::outcome::Outcome;
use crate::progress::Progress;
use crate::request::Request;
use mg_model::failures::ChosenRefusal;
use std::alloc::AllocError;

impl Connections {
    /// The commands of a request in their order, up to the chosen refusal, the first command that is refused, or the end
    /// (H.248.1 section 8.2.1); what was done before a failure stays (this profile's own). Then the numbers of what is no more may be
    /// given again. Where memory runs out the value is gone.
    pub fn run(
        self,
        request: &Request,
        chosen: Option<ChosenRefusal>,
    ) -> Result<(Connections, Outcome), AllocError>
        ensures { IfOk result (λ ended. Ends self request.now chosen ended.0 ended.1.results.items (line_notes ended.1.notes.items) ended.1.failure) }
    {
        let mut progress = Progress::start(self, request.commands().len())?;
        let failure = progress.run(request.commands(), chosen, request.number())?;
        progress.connections.settle();
        Ok((
            progress.connections,
            Outcome {
                results: progress.results,
                failure,
                notes: progress.notes,
            },
        ))
    }
}
