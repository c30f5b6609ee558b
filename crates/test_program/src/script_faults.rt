//! The lines and statuses of faults of scripts and of the store.
use crate::desks::assert_same;
use cli_tasks::fault::{fault_of_script, fault_of_store};
use std::rt::HostRuntime;
use store::StoreFault;
use web::ScriptFault;

#[test]
fn lines_and_statuses_of_scripts_and_the_store(rt: HostRuntime) {
    let cases = [
        (fault_of_store(StoreFault::Database), "roadesk: database", 3),
        (fault_of_store(StoreFault::Schema), "roadesk: schema", 5),
        (fault_of_script(ScriptFault::Read), "roadesk: stream", 3),
        (fault_of_script(ScriptFault::Write), "roadesk: stream", 3),
        (fault_of_script(ScriptFault::Memory), "roadesk: memory", 4),
    ];
    for (fault, line, status) in cases {
        assert_same(&rt, fault.line().as_str(), line, line);
        assert_same(&rt, fault.status(), status, line);
    }
}
