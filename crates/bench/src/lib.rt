// Worked values, proved together of the definitions that all contracts cite.
#![tactic(auto)]

ghost use Rattle.bench.specs.Machines.{MachineValues};
ghost use Rattle.bench.specs.Values.{BenchValues};

// Nothing is computed here: the contract is the fact.
pub fn bench_values()
    ensures bench_values { BenchValues }
    ensures machines { MachineValues }
{}
