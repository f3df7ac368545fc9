// No code to run. Each function promises one of the page's statements (specs/Demands.antt), so the check of this crate is the check that they are shown.
#![tactic(auto)]

ghost use Rattle.demands.specs.Demands.{Demand1, Demand2, Demand3, Request101, Request102};
ghost use Rattle.demands.specs.Instances.{Instances};

pub fn demand_1()
    ensures { Demand1 }
{}

pub fn demand_2()
    ensures { Demand2 }
{}

pub fn demand_3()
    ensures { Demand3 }
{}

pub fn request_101()
    ensures { Request101 }
{}

pub fn request_102()
    ensures { Request102 }
{}

pub fn instances()
    ensures { Instances }
{}
