//! Clients on the loopback, and what they are answered.
use crate::desks::{first_of_march, request_text};
use cli_tasks::serve::{Connections, Incoming, Network, Printed, serve_on};
use desk::Desk;
use sqlite::Alter;
use std::alloc::Global;
use std::io::{self, ErrorKind, Read, Write};
use std::net::{Shutdown, SocketAddr, TcpListener, TcpStream};
use std::process::Abort;
use std::rt::HostRuntime;
use std::time::Clock;

/// Requests after which `ann` manages `alpha`.
pub(crate) const HOLDER: &str = r#"
PUT /holders/alpha reg 
POST /holders/alpha/delegations reg {"prefix":"192.0.2.0/24"}
POST /holders/alpha/grants reg {"name":"ann","role":"manager","scope":"all","until":"2026-12-31"}
"#;

/// A request after those of `HOLDER`, which leaves one authorization.
pub(crate) const CREATE: &str =
    r#"POST /holders/alpha/auths ann {"asn":64496,"prefix":"192.0.2.0/24","max":24,"from":"2026-01-01","until":"2026-12-31"}"#;

/// What the clients were answered, and the lines on their connections.
#[derive(Drop)]
pub(crate) struct Served {
    pub(crate) answers: Vec<String>,
    pub(crate) errors: Vec<u8>,
}

/// The requests of the rows, which are the lines of these texts.
pub(crate) fn requests(test: &impl Abort, alloc: Global, tables: &[&str]) -> Vec<String> {
    let mut texts = Vec::new(alloc);
    for table in tables {
        for row in table.lines() {
            if !row.is_empty() {
                let text = request_text(test, alloc, row);
                texts.push(text).expect(test, "texts");
            }
        }
    }
    texts
}

/// What a client does once its text is sent.
#[derive(Clone, Copy)]
pub(crate) enum AfterText {
    ShutsWriting,
    StaysOpen,
}

/// Once the address is bound, a client for each text connects, and sends it and no more.
#[derive(Drop)]
pub(crate) struct Callers<'a> {
    rt: &'a HostRuntime,
    texts: &'a [String],
    after: AfterText,
    pub(crate) clients: Vec<TcpStream>,
}

impl<'a> Callers<'a> {
    pub(crate) fn new(rt: &'a HostRuntime, texts: &'a [String], after: AfterText) -> Callers<'a> {
        Callers {
            rt,
            texts,
            after,
            clients: Vec::new(rt.alloc()),
        }
    }

    /// How many connections there will be.
    pub(crate) fn count(&self) -> u32 {
        u32::try_from(self.texts.len()).unwrap_or(u32::MAX)
    }

    fn connect_each(&mut self, address: SocketAddr) -> io::Result<()> {
        for text in self.texts {
            let mut client = TcpStream::connect(self.rt, address)?;
            client.write_all(text.as_bytes())?;
            if matches!(self.after, AfterText::ShutsWriting) {
                client.shutdown(Shutdown::Write)?;
            }
            self.clients.push(client)?;
        }
        Ok(())
    }
}

impl Network for Callers<'_> {
    fn bind(&mut self, address: &str) -> io::Result<TcpListener> {
        let listener = TcpListener::bind(self.rt, address)?;
        self.connect_each(listener.local_addr()?)?;
        Ok(listener)
    }
}

/// A network that has this one socket, which is bound already.
#[derive(Drop)]
pub(crate) struct Bound(pub(crate) Option<TcpListener>);

impl Network for Bound {
    fn bind(&mut self, _address: &str) -> io::Result<TcpListener> {
        match self.0.take() {
            Some(listener) => Ok(listener),
            None => Err(ErrorKind::AddrInUse.into()),
        }
    }
}

/// A client that waits for its connection to be accepted, and the socket that has to accept it.
pub(crate) fn waiting_client(test: &impl Abort, rt: &HostRuntime) -> (TcpStream, TcpListener) {
    let listener = TcpListener::bind(rt, "127.0.0.1:0").expect(test, "a socket");
    let address = listener.local_addr().expect(test, "an address");
    let client = TcpStream::connect(rt, address).expect(test, "a client");
    (client, listener)
}

/// What the client is answered.
pub(crate) fn answer_to(test: &impl Abort, alloc: Global, client: &mut TcpStream) -> String {
    let mut answer = String::new(alloc);
    client.read_to_string(&mut answer).expect(test, "an answer");
    answer
}

/// What each client is answered.
pub(crate) fn answers_to(
    test: &impl Abort,
    alloc: Global,
    clients: &mut Vec<TcpStream>,
) -> Vec<String> {
    let mut answers = Vec::new(alloc);
    for client in clients {
        let answer = answer_to(test, alloc, client);
        answers.push(answer).expect(test, "answers");
    }
    answers
}

/// The desk serves this many connections over the network. The lines on them.
pub(crate) fn serve_over<R: Clock, N: Network, S: Alter>(
    test: &impl Abort,
    alloc: Global,
    clock: &R,
    network: &mut N,
    count: u32,
    desk: &mut Desk<S>,
) -> Vec<u8> {
    let day = first_of_march(test);
    let mut errors = Vec::new(alloc);
    let mut connections = Incoming::new(clock, network, "127.0.0.1:0");
    connections.listen().expect(test, "a socket");
    let mut log = Printed::new(&mut errors);
    let served = serve_on(alloc, &mut connections, count, desk, day, &mut log);
    served.expect(test, "connections");
    errors
}

/// Each client connects and sends its text, the desk serves them all, and each client reads.
pub(crate) fn serve<R: Clock, S: Alter>(
    test: &impl Abort,
    rt: &HostRuntime,
    clock: &R,
    desk: &mut Desk<S>,
    texts: &[String],
    after: AfterText,
) -> Served {
    let mut callers = Callers::new(rt, texts, after);
    let count = callers.count();
    let errors = serve_over(test, rt.alloc(), clock, &mut callers, count, desk);
    let answers = answers_to(test, rt.alloc(), &mut callers.clients);
    Served { answers, errors }
}
