// The law of the docket, as a contract.
ghost use Rattle.docket.specs.Laws.{DocketLaw, RunsExtend, BookCallsLift, ModelsHanded, TableauxHanded};

use judge::laws::tableaux_have_bytes;
use models::laws::models_encoded;

// After every list of calls, granted or refused and with any arguments, the whole law holds, of the docket's
// state and of every next call. Any list of events extends a run. Calls of a book are calls of a docket. Every
// model of at most 32 elements can be handed over as bytes, and so can every closed tableau that is within the
// limits and fits the lists.
pub fn docket_law()
    ensures law { DocketLaw }
    ensures extend { RunsExtend }
    ensures book_calls { BookCallsLift }
    ensures models { ModelsHanded }
    ensures tableaux { TableauxHanded }
{
    models_encoded();
    tableaux_have_bytes();
}
