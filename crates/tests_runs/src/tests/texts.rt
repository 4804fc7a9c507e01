//! The source texts of the rows. Lines and columns count from 1.

pub const TWO: &[u8] = b"class Node { val: int; next: Node; }
thread t {
  var n: Node = new Node;
  check n.val == 0;
  n.val = 1;
}";

pub const LIST: &[u8] = b"class Node { val: int; next: Node; }
pred sorted(n: Node): bool =
  n == null || n.next == null || n.val <= n.next.val && sorted(n.next);
thread t {
  var c: Node = new Node;
  c.val = 3;
  var b: Node = new Node;
  b.val = 2;
  b.next = c;
  var a: Node = new Node;
  a.val = 1;
  a.next = b;
  check sorted(a);
  a.val = 9;
  check sorted(a);
}";

pub const LOST: &[u8] = b"class Box { v: int; }
shared { a: int; }
thread t {
  check shared.a == 0;
  shared.a = 1;
  var b: Box = new Box;
  check b.v == 0;
}";

pub const FAULTS: &[u8] = b"class Node { val: int; next: Node; }
thread t {
  var n: Node = null;
  check n.val == 0;
  check 1 / (2 - 2) == 0;
  check (0 - 9223372036854775807 - 1) / (0 - 1) == 0;
}";

pub const DOWN: &[u8] = b"pred down(k: int): bool = k <= 1 || down(k - 1);
thread t { check down(4096); check down(4097); }";

/// Two threads that count together to 200.
pub const BUMP: &[u8] = b"shared { n: int; }
proc bump() {
  var done: bool = false;
  while (!done) {
    var v: int = shared.n;
    done = cas(shared.n, v, v + 1);
  }
}
thread a { var i: int = 0; while (i < 100) { bump(); i = i + 1; } }
thread b { var i: int = 0; while (i < 100) { bump(); i = i + 1; } }";

pub const NULL: &[u8] = b"class Box { v: int; }
shared { x: Box; }
thread a { check shared.x == null; }
thread b { var n: Box = null; n.v = 1; }";

pub const THREE: &[u8] = b"class Box { v: int; }
thread t {
  var a: Box = new Box;
  var b: Box = new Box;
  var c: Box = new Box;
}";

pub const ENDLESS: &[u8] = b"thread t { while (true) { } }";

pub const DEEP: &[u8] = b"proc p() { p(); }
thread t { p(); }";

/// Two threads and four checks, whose cells are stored to while they may be active.
pub const FOUR: &[u8] = b"class Node { val: int; next: Node; }
shared { root: Node; n: int; }
pred low(n: Node): bool = n == null || n.val < 10 && low(n.next);
thread a {
  var x: Node = new Node;
  x.val = 3;
  shared.root = x;
  check low(shared.root);
  var y: Node = new Node;
  y.val = 4;
  y.next = x;
  shared.root = y;
  check low(y) && shared.n < 9;
  x.val = 20;
  y.val = 30;
}
thread b {
  check shared.n == 0;
  shared.n = shared.n + 1;
  shared.n = 12;
  check shared.n > 5 && low(shared.root);
  shared.n = 2;
  shared.root = null;
}";

/// Two threads, each with one event.
pub const APART: &[u8] = b"shared { n: int; }
thread a { shared.n = 1; }
thread b { shared.n = 2; }";

/// A check that does not read the object that is changed.
pub const BESIDE: &[u8] = b"class Box { v: int; }
shared { a: int; }
thread t {
  var b: Box = new Box;
  check shared.a == 0;
  b.v = 1;
}";

/// A check that reads two objects, which are changed one after the other.
pub const BOTH: &[u8] = b"class Box { v: int; }
shared { a: int; }
thread t {
  var b: Box = new Box;
  check shared.a == b.v;
  shared.a = 1;
  b.v = 1;
}";

/// A place whose object faults, and a value that would.
pub const IN_OBJECT: &[u8] = b"class Node { val: int; next: Node; }
thread t {
  var n: Node = null;
  n.next.val = 1 / 0;
}";

/// A value that faults, and a place whose object is null.
pub const IN_VALUE: &[u8] = b"class Node { val: int; next: Node; }
thread t {
  var n: Node = null;
  n.val = 1 / 0;
}";

/// A place whose object is null.
pub const IN_TARGET: &[u8] = b"class Node { val: int; next: Node; }
thread t {
  var n: Node = null;
  n.val = 1;
}";

/// A new value that faults, and a place whose object is null.
pub const IN_CAS_VALUE: &[u8] = b"class Node { val: int; next: Node; }
thread t {
  var n: Node = null;
  var b: bool = cas(n.val, 1, 2 / 0);
}";

pub const IN_CAS_TARGET: &[u8] = b"class Node { val: int; next: Node; }
thread t {
  var n: Node = null;
  var b: bool = cas(n.val, 1, 2);
}";

pub const STORE_THEN_NULL: &[u8] = b"class Node { val: int; } shared { x: int; }
thread t {
  var n: Node = null;
  shared.x = 1;
  n.val = 1;
}";

pub const CHECK: &[u8] = b"thread t { check true; }";

pub const THREE_TURNS: &[u8] = b"thread t { var i: int = 0; while (i < 3) { i = i + 1; } }";

pub const TWO_CALLS: &[u8] = b"proc p() { }
thread t { p(); p(); }";

pub const LOADS: &[u8] = b"shared { n: int; }
thread t { shared.n = shared.n + shared.n; }";

/// A body and 256 calls, each in the one before.
pub const CALLS_256: &[u8] = b"shared { n: int; }
proc p(k: int) { if (1 < k) { p(k - 1); } else { shared.n = k; } }
thread t { p(256); }";

/// A body and 257 calls, each in the one before.
pub const CALLS_257: &[u8] = b"shared { n: int; }
proc p(k: int) { if (1 < k) { p(k - 1); } else { shared.n = k; } }
thread t { p(257); }";

pub const CAS: &[u8] = b"shared { n: int; }
thread t {
  var done: bool = cas(shared.n, 0, 1);
  if (done) { shared.n = 7; } else { shared.n = 8; }
}";

pub const BLOCK_TWICE: &[u8] = b"shared { n: int; }
thread t {
  var i: int = 0;
  while (i < 2) { var k: int = 0; k = k + 1; shared.n = k; i = i + 1; }
}";

pub const BY_VALUE: &[u8] = b"shared { n: int; }
proc p(k: int) { k = k + 1; shared.n = k; }
thread t { var k: int = 4; p(k); shared.n = k; }";

pub const LONG_PLACE: &[u8] = b"class Node { val: int; next: Node; }
thread t { var a: Node = new Node; a.next.next.val = 6; }";

pub const REFERENCES: &[u8] = b"class Node { val: int; next: Node; }
proc put(n: Node, v: int) { n.val = v; }
proc join(a: Node, b: Node) { a.next = b; put(b, 5); put(a, 6); }
thread t { var a: Node = new Node; var b: Node = new Node; join(a, b); join(b, a); }";

pub const OVERFLOW: &[u8] = b"shared { n: int; }
thread t { shared.n = 9223372036854775807 + 1; }";
