//! Windows over the seven workers of a workshop.

use crate::asking::{Around, differences};
use crate::workshop::WORKSHOP;
use std::test::Fail;

/// What stands around the arguments of a row.
const AROUND: Around = Around {
    opening: "{ allWorkers(",
    closing: ") { nodes { name } totalCount pageInfo { hasNextPage hasPreviousPage startCursor endCursor } } }",
};

/// The arguments of a connection, and the response.
const ROWS: &str = r##"
first: 7 => {"data":{"allWorkers":{"nodes":[{"name":"Ada"},{"name":"Bea"},{"name":"Cid"},{"name":"Dora"},{"name":"eve"},{"name":"Éva"},{"name":""}],"totalCount":7,"pageInfo":{"hasNextPage":false,"hasPreviousPage":false,"startCursor":"W1tdLFtdLDFd","endCursor":"W1tdLFtdLDdd"}}}}
first: 1 => {"data":{"allWorkers":{"nodes":[{"name":"Ada"}],"totalCount":7,"pageInfo":{"hasNextPage":true,"hasPreviousPage":false,"startCursor":"W1tdLFtdLDFd","endCursor":"W1tdLFtdLDFd"}}}}
first: 0 => {"data":{"allWorkers":{"nodes":[],"totalCount":7,"pageInfo":{"hasNextPage":true,"hasPreviousPage":false,"startCursor":null,"endCursor":null}}}}
first: 3 => {"data":{"allWorkers":{"nodes":[{"name":"Ada"},{"name":"Bea"},{"name":"Cid"}],"totalCount":7,"pageInfo":{"hasNextPage":true,"hasPreviousPage":false,"startCursor":"W1tdLFtdLDFd","endCursor":"W1tdLFtdLDNd"}}}}
first: 8 => {"data":{"allWorkers":{"nodes":[{"name":"Ada"},{"name":"Bea"},{"name":"Cid"},{"name":"Dora"},{"name":"eve"},{"name":"Éva"},{"name":""}],"totalCount":7,"pageInfo":{"hasNextPage":false,"hasPreviousPage":false,"startCursor":"W1tdLFtdLDFd","endCursor":"W1tdLFtdLDdd"}}}}
first: 2147483647 => {"data":{"allWorkers":{"nodes":[{"name":"Ada"},{"name":"Bea"},{"name":"Cid"},{"name":"Dora"},{"name":"eve"},{"name":"Éva"},{"name":""}],"totalCount":7,"pageInfo":{"hasNextPage":false,"hasPreviousPage":false,"startCursor":"W1tdLFtdLDFd","endCursor":"W1tdLFtdLDdd"}}}}
last: 1 => {"data":{"allWorkers":{"nodes":[{"name":""}],"totalCount":7,"pageInfo":{"hasNextPage":false,"hasPreviousPage":true,"startCursor":"W1tdLFtdLDdd","endCursor":"W1tdLFtdLDdd"}}}}
last: 0 => {"data":{"allWorkers":{"nodes":[],"totalCount":7,"pageInfo":{"hasNextPage":false,"hasPreviousPage":true,"startCursor":null,"endCursor":null}}}}
last: 3 => {"data":{"allWorkers":{"nodes":[{"name":"eve"},{"name":"Éva"},{"name":""}],"totalCount":7,"pageInfo":{"hasNextPage":false,"hasPreviousPage":true,"startCursor":"W1tdLFtdLDVd","endCursor":"W1tdLFtdLDdd"}}}}
last: 7 => {"data":{"allWorkers":{"nodes":[{"name":"Ada"},{"name":"Bea"},{"name":"Cid"},{"name":"Dora"},{"name":"eve"},{"name":"Éva"},{"name":""}],"totalCount":7,"pageInfo":{"hasNextPage":false,"hasPreviousPage":false,"startCursor":"W1tdLFtdLDFd","endCursor":"W1tdLFtdLDdd"}}}}
last: 8 => {"data":{"allWorkers":{"nodes":[{"name":"Ada"},{"name":"Bea"},{"name":"Cid"},{"name":"Dora"},{"name":"eve"},{"name":"Éva"},{"name":""}],"totalCount":7,"pageInfo":{"hasNextPage":false,"hasPreviousPage":false,"startCursor":"W1tdLFtdLDFd","endCursor":"W1tdLFtdLDdd"}}}}
last: 2147483647 => {"data":{"allWorkers":{"nodes":[{"name":"Ada"},{"name":"Bea"},{"name":"Cid"},{"name":"Dora"},{"name":"eve"},{"name":"Éva"},{"name":""}],"totalCount":7,"pageInfo":{"hasNextPage":false,"hasPreviousPage":false,"startCursor":"W1tdLFtdLDFd","endCursor":"W1tdLFtdLDdd"}}}}
offset: 0 => {"data":{"allWorkers":{"nodes":[{"name":"Ada"},{"name":"Bea"},{"name":"Cid"},{"name":"Dora"},{"name":"eve"},{"name":"Éva"},{"name":""}],"totalCount":7,"pageInfo":{"hasNextPage":false,"hasPreviousPage":false,"startCursor":"W1tdLFtdLDFd","endCursor":"W1tdLFtdLDdd"}}}}
offset: 1 => {"data":{"allWorkers":{"nodes":[{"name":"Bea"},{"name":"Cid"},{"name":"Dora"},{"name":"eve"},{"name":"Éva"},{"name":""}],"totalCount":7,"pageInfo":{"hasNextPage":false,"hasPreviousPage":true,"startCursor":"W1tdLFtdLDJd","endCursor":"W1tdLFtdLDdd"}}}}
offset: 6 => {"data":{"allWorkers":{"nodes":[{"name":""}],"totalCount":7,"pageInfo":{"hasNextPage":false,"hasPreviousPage":true,"startCursor":"W1tdLFtdLDdd","endCursor":"W1tdLFtdLDdd"}}}}
offset: 7 => {"data":{"allWorkers":{"nodes":[],"totalCount":7,"pageInfo":{"hasNextPage":false,"hasPreviousPage":true,"startCursor":null,"endCursor":null}}}}
offset: 8 => {"data":{"allWorkers":{"nodes":[],"totalCount":7,"pageInfo":{"hasNextPage":false,"hasPreviousPage":true,"startCursor":null,"endCursor":null}}}}
offset: 2147483647 => {"data":{"allWorkers":{"nodes":[],"totalCount":7,"pageInfo":{"hasNextPage":false,"hasPreviousPage":true,"startCursor":null,"endCursor":null}}}}
after: "W1tdLFtdLDFd" => {"data":{"allWorkers":{"nodes":[{"name":"Bea"},{"name":"Cid"},{"name":"Dora"},{"name":"eve"},{"name":"Éva"},{"name":""}],"totalCount":7,"pageInfo":{"hasNextPage":false,"hasPreviousPage":true,"startCursor":"W1tdLFtdLDJd","endCursor":"W1tdLFtdLDdd"}}}}
after: "W1tdLFtdLDRd" => {"data":{"allWorkers":{"nodes":[{"name":"eve"},{"name":"Éva"},{"name":""}],"totalCount":7,"pageInfo":{"hasNextPage":false,"hasPreviousPage":true,"startCursor":"W1tdLFtdLDVd","endCursor":"W1tdLFtdLDdd"}}}}
after: "W1tdLFtdLDdd" => {"data":{"allWorkers":{"nodes":[],"totalCount":7,"pageInfo":{"hasNextPage":false,"hasPreviousPage":true,"startCursor":null,"endCursor":null}}}}
before: "W1tdLFtdLDFd" => {"data":{"allWorkers":{"nodes":[],"totalCount":7,"pageInfo":{"hasNextPage":true,"hasPreviousPage":false,"startCursor":null,"endCursor":null}}}}
before: "W1tdLFtdLDRd" => {"data":{"allWorkers":{"nodes":[{"name":"Ada"},{"name":"Bea"},{"name":"Cid"}],"totalCount":7,"pageInfo":{"hasNextPage":true,"hasPreviousPage":false,"startCursor":"W1tdLFtdLDFd","endCursor":"W1tdLFtdLDNd"}}}}
before: "W1tdLFtdLDdd" => {"data":{"allWorkers":{"nodes":[{"name":"Ada"},{"name":"Bea"},{"name":"Cid"},{"name":"Dora"},{"name":"eve"},{"name":"Éva"}],"totalCount":7,"pageInfo":{"hasNextPage":true,"hasPreviousPage":false,"startCursor":"W1tdLFtdLDFd","endCursor":"W1tdLFtdLDZd"}}}}
first: 2, offset: 0 => {"data":{"allWorkers":{"nodes":[{"name":"Ada"},{"name":"Bea"}],"totalCount":7,"pageInfo":{"hasNextPage":true,"hasPreviousPage":false,"startCursor":"W1tdLFtdLDFd","endCursor":"W1tdLFtdLDJd"}}}}
first: 2, offset: 1 => {"data":{"allWorkers":{"nodes":[{"name":"Bea"},{"name":"Cid"}],"totalCount":7,"pageInfo":{"hasNextPage":true,"hasPreviousPage":true,"startCursor":"W1tdLFtdLDJd","endCursor":"W1tdLFtdLDNd"}}}}
first: 2, offset: 5 => {"data":{"allWorkers":{"nodes":[{"name":"Éva"},{"name":""}],"totalCount":7,"pageInfo":{"hasNextPage":false,"hasPreviousPage":true,"startCursor":"W1tdLFtdLDZd","endCursor":"W1tdLFtdLDdd"}}}}
first: 2, offset: 6 => {"data":{"allWorkers":{"nodes":[{"name":""}],"totalCount":7,"pageInfo":{"hasNextPage":false,"hasPreviousPage":true,"startCursor":"W1tdLFtdLDdd","endCursor":"W1tdLFtdLDdd"}}}}
first: 2, offset: 7 => {"data":{"allWorkers":{"nodes":[],"totalCount":7,"pageInfo":{"hasNextPage":false,"hasPreviousPage":true,"startCursor":null,"endCursor":null}}}}
first: 0, offset: 3 => {"data":{"allWorkers":{"nodes":[],"totalCount":7,"pageInfo":{"hasNextPage":true,"hasPreviousPage":true,"startCursor":null,"endCursor":null}}}}
first: 2147483647, offset: 2147483647 => {"data":{"allWorkers":{"nodes":[],"totalCount":7,"pageInfo":{"hasNextPage":false,"hasPreviousPage":true,"startCursor":null,"endCursor":null}}}}
first: 2, after: "W1tdLFtdLDFd" => {"data":{"allWorkers":{"nodes":[{"name":"Bea"},{"name":"Cid"}],"totalCount":7,"pageInfo":{"hasNextPage":true,"hasPreviousPage":true,"startCursor":"W1tdLFtdLDJd","endCursor":"W1tdLFtdLDNd"}}}}
first: 2, after: "W1tdLFtdLDVd" => {"data":{"allWorkers":{"nodes":[{"name":"Éva"},{"name":""}],"totalCount":7,"pageInfo":{"hasNextPage":false,"hasPreviousPage":true,"startCursor":"W1tdLFtdLDZd","endCursor":"W1tdLFtdLDdd"}}}}
first: 2, after: "W1tdLFtdLDZd" => {"data":{"allWorkers":{"nodes":[{"name":""}],"totalCount":7,"pageInfo":{"hasNextPage":false,"hasPreviousPage":true,"startCursor":"W1tdLFtdLDdd","endCursor":"W1tdLFtdLDdd"}}}}
first: 2, after: "W1tdLFtdLDdd" => {"data":{"allWorkers":{"nodes":[],"totalCount":7,"pageInfo":{"hasNextPage":false,"hasPreviousPage":true,"startCursor":null,"endCursor":null}}}}
first: 0, after: "W1tdLFtdLDRd" => {"data":{"allWorkers":{"nodes":[],"totalCount":7,"pageInfo":{"hasNextPage":true,"hasPreviousPage":true,"startCursor":null,"endCursor":null}}}}
first: 9, after: "W1tdLFtdLDRd" => {"data":{"allWorkers":{"nodes":[{"name":"eve"},{"name":"Éva"},{"name":""}],"totalCount":7,"pageInfo":{"hasNextPage":false,"hasPreviousPage":true,"startCursor":"W1tdLFtdLDVd","endCursor":"W1tdLFtdLDdd"}}}}
first: 2, before: "W1tdLFtdLDFd" => {"data":{"allWorkers":{"nodes":[],"totalCount":7,"pageInfo":{"hasNextPage":true,"hasPreviousPage":false,"startCursor":null,"endCursor":null}}}}
first: 2, before: "W1tdLFtdLDJd" => {"data":{"allWorkers":{"nodes":[{"name":"Ada"}],"totalCount":7,"pageInfo":{"hasNextPage":true,"hasPreviousPage":false,"startCursor":"W1tdLFtdLDFd","endCursor":"W1tdLFtdLDFd"}}}}
first: 2, before: "W1tdLFtdLDNd" => {"data":{"allWorkers":{"nodes":[{"name":"Ada"},{"name":"Bea"}],"totalCount":7,"pageInfo":{"hasNextPage":true,"hasPreviousPage":false,"startCursor":"W1tdLFtdLDFd","endCursor":"W1tdLFtdLDJd"}}}}
first: 2, before: "W1tdLFtdLDdd" => {"data":{"allWorkers":{"nodes":[{"name":"Ada"},{"name":"Bea"}],"totalCount":7,"pageInfo":{"hasNextPage":true,"hasPreviousPage":false,"startCursor":"W1tdLFtdLDFd","endCursor":"W1tdLFtdLDJd"}}}}
first: 0, before: "W1tdLFtdLDRd" => {"data":{"allWorkers":{"nodes":[],"totalCount":7,"pageInfo":{"hasNextPage":true,"hasPreviousPage":false,"startCursor":null,"endCursor":null}}}}
last: 2, after: "W1tdLFtdLDFd" => {"data":{"allWorkers":{"nodes":[{"name":"Éva"},{"name":""}],"totalCount":7,"pageInfo":{"hasNextPage":false,"hasPreviousPage":true,"startCursor":"W1tdLFtdLDZd","endCursor":"W1tdLFtdLDdd"}}}}
last: 2, after: "W1tdLFtdLDVd" => {"data":{"allWorkers":{"nodes":[{"name":"Éva"},{"name":""}],"totalCount":7,"pageInfo":{"hasNextPage":false,"hasPreviousPage":true,"startCursor":"W1tdLFtdLDZd","endCursor":"W1tdLFtdLDdd"}}}}
last: 2, after: "W1tdLFtdLDZd" => {"data":{"allWorkers":{"nodes":[{"name":""}],"totalCount":7,"pageInfo":{"hasNextPage":false,"hasPreviousPage":true,"startCursor":"W1tdLFtdLDdd","endCursor":"W1tdLFtdLDdd"}}}}
last: 2, after: "W1tdLFtdLDdd" => {"data":{"allWorkers":{"nodes":[],"totalCount":7,"pageInfo":{"hasNextPage":false,"hasPreviousPage":true,"startCursor":null,"endCursor":null}}}}
last: 0, after: "W1tdLFtdLDRd" => {"data":{"allWorkers":{"nodes":[],"totalCount":7,"pageInfo":{"hasNextPage":false,"hasPreviousPage":true,"startCursor":null,"endCursor":null}}}}
last: 9, after: "W1tdLFtdLDRd" => {"data":{"allWorkers":{"nodes":[{"name":"eve"},{"name":"Éva"},{"name":""}],"totalCount":7,"pageInfo":{"hasNextPage":false,"hasPreviousPage":true,"startCursor":"W1tdLFtdLDVd","endCursor":"W1tdLFtdLDdd"}}}}
last: 2, before: "W1tdLFtdLDFd" => {"data":{"allWorkers":{"nodes":[],"totalCount":7,"pageInfo":{"hasNextPage":true,"hasPreviousPage":false,"startCursor":null,"endCursor":null}}}}
last: 2, before: "W1tdLFtdLDJd" => {"data":{"allWorkers":{"nodes":[{"name":"Ada"}],"totalCount":7,"pageInfo":{"hasNextPage":true,"hasPreviousPage":false,"startCursor":"W1tdLFtdLDFd","endCursor":"W1tdLFtdLDFd"}}}}
last: 2, before: "W1tdLFtdLDNd" => {"data":{"allWorkers":{"nodes":[{"name":"Ada"},{"name":"Bea"}],"totalCount":7,"pageInfo":{"hasNextPage":true,"hasPreviousPage":false,"startCursor":"W1tdLFtdLDFd","endCursor":"W1tdLFtdLDJd"}}}}
last: 2, before: "W1tdLFtdLDdd" => {"data":{"allWorkers":{"nodes":[{"name":"eve"},{"name":"Éva"}],"totalCount":7,"pageInfo":{"hasNextPage":true,"hasPreviousPage":true,"startCursor":"W1tdLFtdLDVd","endCursor":"W1tdLFtdLDZd"}}}}
last: 0, before: "W1tdLFtdLDRd" => {"data":{"allWorkers":{"nodes":[],"totalCount":7,"pageInfo":{"hasNextPage":true,"hasPreviousPage":true,"startCursor":null,"endCursor":null}}}}
last: 9, before: "W1tdLFtdLDRd" => {"data":{"allWorkers":{"nodes":[{"name":"Ada"},{"name":"Bea"},{"name":"Cid"}],"totalCount":7,"pageInfo":{"hasNextPage":true,"hasPreviousPage":false,"startCursor":"W1tdLFtdLDFd","endCursor":"W1tdLFtdLDNd"}}}}
offset: 1, after: "W1tdLFtdLDFd" => {"data":{"allWorkers":{"nodes":[{"name":"Cid"},{"name":"Dora"},{"name":"eve"},{"name":"Éva"},{"name":""}],"totalCount":7,"pageInfo":{"hasNextPage":false,"hasPreviousPage":true,"startCursor":"W1tdLFtdLDNd","endCursor":"W1tdLFtdLDdd"}}}}
offset: 6, after: "W1tdLFtdLDFd" => {"data":{"allWorkers":{"nodes":[],"totalCount":7,"pageInfo":{"hasNextPage":false,"hasPreviousPage":true,"startCursor":null,"endCursor":null}}}}
offset: 2, after: "W1tdLFtdLDVd" => {"data":{"allWorkers":{"nodes":[],"totalCount":7,"pageInfo":{"hasNextPage":false,"hasPreviousPage":true,"startCursor":null,"endCursor":null}}}}
offset: 1, after: "W1tdLFtdLDdd" => {"data":{"allWorkers":{"nodes":[],"totalCount":7,"pageInfo":{"hasNextPage":false,"hasPreviousPage":true,"startCursor":null,"endCursor":null}}}}
offset: 1, before: "W1tdLFtdLDRd" => {"data":{"allWorkers":{"nodes":[{"name":"Bea"},{"name":"Cid"}],"totalCount":7,"pageInfo":{"hasNextPage":true,"hasPreviousPage":true,"startCursor":"W1tdLFtdLDJd","endCursor":"W1tdLFtdLDNd"}}}}
offset: 3, before: "W1tdLFtdLDRd" => {"data":{"allWorkers":{"nodes":[],"totalCount":7,"pageInfo":{"hasNextPage":true,"hasPreviousPage":true,"startCursor":null,"endCursor":null}}}}
offset: 4, before: "W1tdLFtdLDRd" => {"data":{"allWorkers":{"nodes":[],"totalCount":7,"pageInfo":{"hasNextPage":true,"hasPreviousPage":true,"startCursor":null,"endCursor":null}}}}
offset: 1, before: "W1tdLFtdLDFd" => {"data":{"allWorkers":{"nodes":[],"totalCount":7,"pageInfo":{"hasNextPage":true,"hasPreviousPage":false,"startCursor":null,"endCursor":null}}}}
offset: 6, before: "W1tdLFtdLDdd" => {"data":{"allWorkers":{"nodes":[],"totalCount":7,"pageInfo":{"hasNextPage":true,"hasPreviousPage":true,"startCursor":null,"endCursor":null}}}}
after: "W1tdLFtdLDFd", before: "W1tdLFtdLDdd" => {"data":{"allWorkers":{"nodes":[{"name":"Bea"},{"name":"Cid"},{"name":"Dora"},{"name":"eve"},{"name":"Éva"}],"totalCount":7,"pageInfo":{"hasNextPage":true,"hasPreviousPage":true,"startCursor":"W1tdLFtdLDJd","endCursor":"W1tdLFtdLDZd"}}}}
after: "W1tdLFtdLDRd", before: "W1tdLFtdLDRd" => {"data":{"allWorkers":{"nodes":[],"totalCount":7,"pageInfo":{"hasNextPage":true,"hasPreviousPage":true,"startCursor":null,"endCursor":null}}}}
after: "W1tdLFtdLDdd", before: "W1tdLFtdLDFd" => {"data":{"allWorkers":{"nodes":[],"totalCount":7,"pageInfo":{"hasNextPage":false,"hasPreviousPage":true,"startCursor":null,"endCursor":null}}}}
after: "W1tdLFtdLDNd", before: "W1tdLFtdLDRd" => {"data":{"allWorkers":{"nodes":[],"totalCount":7,"pageInfo":{"hasNextPage":true,"hasPreviousPage":true,"startCursor":null,"endCursor":null}}}}
after: "W1tdLFtdLDVd", before: "W1tdLFtdLDJd" => {"data":{"allWorkers":{"nodes":[],"totalCount":7,"pageInfo":{"hasNextPage":true,"hasPreviousPage":true,"startCursor":null,"endCursor":null}}}}
after: "W1tdLFtdLDFd", before: "W1tdLFtdLDdd", first: 2 => {"data":{"allWorkers":{"nodes":[{"name":"Bea"},{"name":"Cid"}],"totalCount":7,"pageInfo":{"hasNextPage":true,"hasPreviousPage":true,"startCursor":"W1tdLFtdLDJd","endCursor":"W1tdLFtdLDNd"}}}}
after: "W1tdLFtdLDFd", before: "W1tdLFtdLDdd", last: 2 => {"data":{"allWorkers":{"nodes":[{"name":"eve"},{"name":"Éva"}],"totalCount":7,"pageInfo":{"hasNextPage":true,"hasPreviousPage":true,"startCursor":"W1tdLFtdLDVd","endCursor":"W1tdLFtdLDZd"}}}}
after: "W1tdLFtdLDFd", before: "W1tdLFtdLDdd", offset: 1, first: 2 => {"data":{"allWorkers":{"nodes":[{"name":"Cid"},{"name":"Dora"}],"totalCount":7,"pageInfo":{"hasNextPage":true,"hasPreviousPage":true,"startCursor":"W1tdLFtdLDNd","endCursor":"W1tdLFtdLDRd"}}}}
after: "W1tdLFtdLDVd", before: "W1tdLFtdLDJd", offset: 1, first: 1 => {"data":{"allWorkers":{"nodes":[],"totalCount":7,"pageInfo":{"hasNextPage":true,"hasPreviousPage":true,"startCursor":null,"endCursor":null}}}}
after: "W1tdLFtdLDVd", before: "W1tdLFtdLDJd", last: 1 => {"data":{"allWorkers":{"nodes":[],"totalCount":7,"pageInfo":{"hasNextPage":true,"hasPreviousPage":true,"startCursor":null,"endCursor":null}}}}
orderBy: PAY_DESC, first: 2 => {"data":{"allWorkers":{"nodes":[{"name":"Bea"},{"name":"Dora"}],"totalCount":7,"pageInfo":{"hasNextPage":true,"hasPreviousPage":false,"startCursor":"W1siUEFZX0RFU0MiXSxbbnVsbF0sMl0=","endCursor":"W1siUEFZX0RFU0MiXSxbbnVsbF0sNF0="}}}}
orderBy: PAY_DESC, last: 2 => {"data":{"allWorkers":{"nodes":[{"name":"Cid"},{"name":""}],"totalCount":7,"pageInfo":{"hasNextPage":false,"hasPreviousPage":true,"startCursor":"W1siUEFZX0RFU0MiXSxbLTVdLDNd","endCursor":"W1siUEFZX0RFU0MiXSxbLTVdLDdd"}}}}
orderBy: [ACTIVE_ASC, GRADE_DESC], offset: 2, first: 3 => {"data":{"allWorkers":{"nodes":[{"name":"Ada"},{"name":"Dora"},{"name":"eve"}],"totalCount":7,"pageInfo":{"hasNextPage":true,"hasPreviousPage":true,"startCursor":"W1siQUNUSVZFX0FTQyIsIkdSQURFX0RFU0MiXSxbdHJ1ZSwidG9wTGV2ZWwiXSwxXQ==","endCursor":"W1siQUNUSVZFX0FTQyIsIkdSQURFX0RFU0MiXSxbdHJ1ZSwianVuaW9yIl0sNV0="}}}}
condition: {firm: 2}, first: 2 => {"data":{"allWorkers":{"nodes":[{"name":"Cid"},{"name":"Dora"}],"totalCount":3,"pageInfo":{"hasNextPage":true,"hasPreviousPage":false,"startCursor":"W1tdLFtdLDNd","endCursor":"W1tdLFtdLDRd"}}}}
condition: {firm: 2}, last: 3 => {"data":{"allWorkers":{"nodes":[{"name":"Cid"},{"name":"Dora"},{"name":"eve"}],"totalCount":3,"pageInfo":{"hasNextPage":false,"hasPreviousPage":false,"startCursor":"W1tdLFtdLDNd","endCursor":"W1tdLFtdLDVd"}}}}
condition: {firm: 9}, first: 1 => {"data":{"allWorkers":{"nodes":[],"totalCount":0,"pageInfo":{"hasNextPage":false,"hasPreviousPage":false,"startCursor":null,"endCursor":null}}}}
condition: {firm: 9}, last: 1 => {"data":{"allWorkers":{"nodes":[],"totalCount":0,"pageInfo":{"hasNextPage":false,"hasPreviousPage":false,"startCursor":null,"endCursor":null}}}}
condition: {firm: 2}, after: "W1tdLFtdLDNd", before: "W1tdLFtdLDVd" => {"data":{"allWorkers":{"nodes":[{"name":"Dora"}],"totalCount":3,"pageInfo":{"hasNextPage":true,"hasPreviousPage":true,"startCursor":"W1tdLFtdLDRd","endCursor":"W1tdLFtdLDRd"}}}}
condition: {firm: 2}, after: "W1tdLFtdLDFd" => {"data":{"allWorkers":{"nodes":[{"name":"Cid"},{"name":"Dora"},{"name":"eve"}],"totalCount":3,"pageInfo":{"hasNextPage":false,"hasPreviousPage":false,"startCursor":"W1tdLFtdLDNd","endCursor":"W1tdLFtdLDVd"}}}}
condition: {firm: 2}, before: "W1tdLFtdLDdd", last: 1 => {"data":{"allWorkers":{"nodes":[{"name":"eve"}],"totalCount":3,"pageInfo":{"hasNextPage":false,"hasPreviousPage":true,"startCursor":"W1tdLFtdLDVd","endCursor":"W1tdLFtdLDVd"}}}}
condition: {firm: 2}, after: "W1tdLFtdLDdd" => {"data":{"allWorkers":{"nodes":[],"totalCount":3,"pageInfo":{"hasNextPage":false,"hasPreviousPage":true,"startCursor":null,"endCursor":null}}}}
"##;

#[test]
fn windows_take_their_rows(rt: HostRuntime) -> Result<(), Fail> {
    let told = differences(rt.alloc(), WORKSHOP, AROUND, ROWS)?;
    assert_eq!(rt; told.as_str(), "");
    Ok(())
}
