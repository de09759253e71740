// The starred cases, one theorem over one table: `specs/Table.antt` is the table, `specs/Cases.antt` the theorem.
#![tactic(auto)]
