ghost use Rattle.dblog_run.specs.Laws.{AnswersAreOne, AnswersStand, StoreFaultsAreTold};

/// The arguments and the contents have at most one answer at a time.
pub fn answers_are_one()
    ensures { AnswersAreOne }
{}

/// Arguments that request no session have an answer at each time, for any bytes.
pub fn answers_stand()
    ensures { AnswersStand }
{}

/// Statuses 4 and 14 are returned if and only if a store isn't what the command needs.
pub fn store_faults_are_told()
    ensures { StoreFaultsAreTold }
{}
