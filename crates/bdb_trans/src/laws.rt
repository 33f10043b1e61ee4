//! The laws of the plans of queries.
ghost use Rattle.bdb_trans.specs.Bounds.{OrdersReadFew, PlanReadsAreBounded};
ghost use Rattle.bdb_trans.specs.TransLaws.{OrdersFitSights, OrdersMeanAnswers, PlansFitSights, PlansMeanAnswers, WrittenOrdersAreOrders};

/// Whatever shows a valid base, the plan of a safe query that fits means the query's answers.
pub fn plans_mean_answers()
    ensures { PlansMeanAnswers }
{}

/// Whatever shows a valid base, the plan of a safe query that fits uses only what is set, at the widths of its relations.
pub fn plans_fit_sights()
    ensures { PlansFitSights }
{}

/// Whatever shows a valid base, the plan of a query that fits reads at most the product of one factor for each item.
pub fn plan_reads_are_bounded()
    ensures { PlanReadsAreBounded }
{}

/// In whichever order the items of a safe query that fits are set, its plan means the query's answers.
pub fn orders_mean_answers()
    ensures { OrdersMeanAnswers }
{}

/// And it uses only what is set, at the widths of its relations.
pub fn orders_fit_sights()
    ensures { OrdersFitSights }
{}

/// And it reads at most the product of one factor for each item.
pub fn orders_read_few()
    ensures { OrdersReadFew }
{}

/// The written order of the items of a query that fits is one of these orders.
pub fn written_orders_are_orders()
    ensures { WrittenOrdersAreOrders }
{}
