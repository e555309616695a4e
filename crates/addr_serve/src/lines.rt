// The lines of a server, each written by one put.
ghost use Rattle.std.specs.Prelude.{◌≡◌, IfOk, string_bytes};
ghost use Rattle.addr_serve.specs.Lines.{port_line, served_line};

use addr_base::NoMemory;
use addr_http::Served;
use std::alloc::Global;

pub fn port_line(alloc: Global, port: u16) -> Result<String, NoMemory>
    ensures { IfOk result (λ line. string_bytes line ≡ port_line port) }
{
    Ok(format!(in alloc; "serving {port}\n")?)
}

pub fn served_line(alloc: Global, served: Served) -> Result<String, NoMemory>
    ensures { IfOk result (λ line. string_bytes line ≡ served_line served) }
{
    match served {
        Served::Answered(status) => Ok(format!(in alloc; "{status}\n")?),
        Served::Broken => Ok(String::from_str(alloc, "broken\n")?),
        Served::NoMemory => Ok(String::from_str(alloc, "memory\n")?),
    }
}
