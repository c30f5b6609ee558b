//! A task, from the files that it names to standard output.
use crate::check_files::{PayloadFile, RouteFile, check_files};
use crate::fault::{fault_of_error, fault_of_script, fault_of_serve};
use crate::help::help_text;
use crate::serve::{Connections, Incoming, Network, Printed};
use crate::serve_desk::serve_files;
use addr::Day;
use cli_texts::{ProgramFault, Task, charter_from};
use desk::Desk;
use desk_files::{MakeFault, connect, files_at, make_desk};
use sqlite_std_file::Unknown;
use std::fs;
use std::io::{self, ErrorKind};
use std::net::TcpListener;
use std::rt::HostRuntime;
use web::{Device, Failed, run_script, write_all};

/// The network of this machine.
#[derive(Drop)]
pub struct Host<'a>(pub &'a HostRuntime);

impl Network for Host<'_> {
    fn bind(&mut self, address: &str) -> io::Result<TcpListener> {
        TcpListener::bind(self.0, address)
    }
}

/// Does the task. A task that serves is lent what binds its socket.
pub fn run_task<N: Network>(
    rt: &HostRuntime,
    task: &Task<'_>,
    network: &mut N,
) -> Result<(), ProgramFault> {
    match task {
        Task::Script { charter } => run_script_task(rt, charter),
        Task::Init { database, charter } => run_init_task(rt, database, charter),
        Task::Serve {
            database,
            address,
            count,
            day,
        } => {
            let mut connections = Incoming::new(rt, network, address);
            run_serve_task(rt, database, &mut connections, *count, *day)
        }
        Task::Check { payloads, routes } => run_check_task(rt, payloads, routes),
        Task::Help => run_help_task(rt),
    }
}

fn run_script_task(rt: &HostRuntime, charter: &str) -> Result<(), ProgramFault> {
    let text = read_input(rt, charter)?;
    let charter = charter_from(rt.alloc(), &text)?;
    let Ok(mut desk) = Desk::open_memory(rt.alloc(), &charter) else {
        return Err(ProgramFault::Database);
    };
    let mut source = Device::new(rt.reader());
    let mut drain = Device::new(io::writer(rt));
    run_script(rt.alloc(), &mut source, &mut drain, &mut desk).map_err(fault_of_script)
}

fn run_init_task(rt: &HostRuntime, database: &str, charter: &str) -> Result<(), ProgramFault> {
    let text = read_input(rt, charter)?;
    let charter = charter_from(rt.alloc(), &text)?;
    match size_of(rt, database)? {
        None | Some(0) => {}
        Some(_) => return Err(ProgramFault::Exists),
    }
    let conn = match connect(rt, database, Unknown) {
        Ok(conn) => conn,
        Err((fault, _)) => return Err(fault),
    };
    match make_desk(rt.alloc(), conn, &charter) {
        Ok(_) => Ok(()),
        Err(MakeFault::Database(_)) => Err(ProgramFault::Database),
        Err(MakeFault::Close(fault)) => {
            drop(fault.store.close());
            Err(ProgramFault::Database)
        }
    }
}

fn run_serve_task<C: Connections>(
    rt: &HostRuntime,
    database: &str,
    connections: &mut C,
    count: u32,
    day: Day,
) -> Result<(), ProgramFault> {
    // An open would make a database where there is none.
    match size_of(rt, database)? {
        None => return Err(ProgramFault::Database),
        Some(0) => return Err(ProgramFault::Schema),
        Some(_) => {}
    }
    let (files, options) = files_at(rt, database, Unknown)?;
    let mut errors = rt.stderr();
    let mut log = Printed::new(&mut errors);
    match serve_files(
        rt.alloc(),
        files,
        options,
        connections,
        count,
        day,
        &mut log,
    ) {
        Ok(_) => Ok(()),
        Err(fault) => Err(fault_of_serve(&fault)),
    }
}

fn run_help_task(rt: &HostRuntime) -> Result<(), ProgramFault> {
    let text = help_text(rt.alloc())?;
    let mut drain = Device::new(io::writer(rt));
    match write_all(&mut drain, text.as_bytes()) {
        Ok(()) => Ok(()),
        Err(Failed) => Err(ProgramFault::Stream),
    }
}

/// Both files are read before either is judged.
fn run_check_task(rt: &HostRuntime, payloads: &str, routes: &str) -> Result<(), ProgramFault> {
    let payloads = PayloadFile(read_input(rt, payloads)?);
    let routes = RouteFile(read_input(rt, routes)?);
    let mut drain = Device::new(io::writer(rt));
    check_files(rt.alloc(), payloads, &routes, &mut drain)
}

fn read_input(rt: &HostRuntime, path: &str) -> Result<Vec<u8>, ProgramFault> {
    match fs::read(rt, path) {
        Ok(bytes) => Ok(bytes),
        Err(error) => Err(fault_of_error(&error, ProgramFault::File)),
    }
}

/// How many bytes the file has; `None` if there is no such file.
fn size_of(rt: &HostRuntime, path: &str) -> Result<Option<u64>, ProgramFault> {
    match fs::metadata(rt, path) {
        Ok(metadata) => Ok(Some(metadata.len())),
        Err(error) if error.kind() == ErrorKind::NotFound => Ok(None),
        Err(error) => Err(fault_of_error(&error, ProgramFault::Database)),
    }
}
