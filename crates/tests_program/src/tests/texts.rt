//! Sources of rows, with what a run of each writes.

/// An object is made, checked and changed.
pub(super) const TWO: &str =
    "class Node { val: int; next: Node; }\nthread t {\n  var n: Node = new Node;\n  check n.val == 0;\n  n.val = 1;\n}";

pub(super) const TWO_REPORT: &str =
    "check t 2 4:3 holds\nthread t finished\nchecks 1 holds 1 fails 0 other 0\n";

pub(super) const TWO_JOURNAL: &str =
    "strobe journal 1\nsizes 1 8 4096 4096 65536 100000\nN 0 2 1\nK 0 1 0 1 2\nS 0 2 0 1\nR 1 1\nV 1 holds\nend 4 1\n";

pub(super) const TWO_JSON: &str =
    "{\"checks\":[{\"column\":3,\"event\":2,\"line\":4,\"thread\":\"t\",\"verdict\":\"holds\"}],\"counts\":{\"checks\":1,\"fails\":0,\"holds\":1,\"other\":0},\"threads\":[{\"end\":\"finished\",\"name\":\"t\"}]}\n";

pub(super) const TWO_ACCEPTED: &str =
    "accepted classes 1 predicates 0 procedures 0 threads 1 checks 1\n";

/// A list that is sorted, and then is not.
pub(super) const LIST: &str =
    "class Node { val: int; next: Node; }\npred sorted(n: Node): bool =\n  n == null || n.next == null || n.val <= n.next.val && sorted(n.next);\nthread t {\n  var c: Node = new Node;\n  c.val = 3;\n  var b: Node = new Node;\n  b.val = 2;\n  b.next = c;\n  var a: Node = new Node;\n  a.val = 1;\n  a.next = b;\n  check sorted(a);\n  a.val = 9;\n  check sorted(a);\n}";

pub(super) const LIST_REPORT: &str =
    "check t 9 13:3 holds\ncheck t 11 15:3 fails\nthread t finished\nchecks 2 holds 1 fails 1 other 0\n";

pub(super) const LIST_SPENT: &str =
    "check t 9 13:3 spent\ncheck t 11 15:3 fails\nthread t finished\nchecks 2 holds 0 fails 1 other 1\n";

/// A version that a pool without copies loses.
pub(super) const LOST: &str =
    "class Box { v: int; }\nshared { a: int; }\nthread t {\n  check shared.a == 0;\n  shared.a = 1;\n  var b: Box = new Box;\n  check b.v == 0;\n}";

pub(super) const LOST_REPORT: &str =
    "check t 1 4:3 abandoned 1\ncheck t 4 7:3 holds\nthread t finished\nchecks 2 holds 1 fails 0 other 1\n";

pub(super) const LOST_KEPT: &str =
    "check t 1 4:3 holds\ncheck t 4 7:3 holds\nthread t finished\nchecks 2 holds 2 fails 0 other 0\n";

/// Three checks that fault.
pub(super) const FAULTS: &str =
    "class Node { val: int; next: Node; }\nthread t {\n  var n: Node = null;\n  check n.val == 0;\n  check 1 / (2 - 2) == 0;\n  check (0 - 9223372036854775807 - 1) / (0 - 1) == 0;\n}";

pub(super) const FAULTS_REPORT: &str =
    "check t 1 4:3 fault null 4:10\ncheck t 2 5:3 fault divide 5:11\ncheck t 3 6:3 fault overflow 6:39\nthread t finished\nchecks 3 holds 0 fails 0 other 3\n";

/// Two threads count up together.
pub(super) const BUMP: &str =
    "shared { n: int; }\nproc bump() {\n  var done: bool = false;\n  while (!done) {\n    var v: int = shared.n;\n    done = cas(shared.n, v, v + 1);\n  }\n}\nthread a { var i: int = 0; while (i < 100) { bump(); i = i + 1; } }\nthread b { var i: int = 0; while (i < 100) { bump(); i = i + 1; } }";

pub(super) const BUMP_REPORT: &str =
    "thread a finished\nthread b finished\nchecks 0 holds 0 fails 0 other 0\n";

/// One thread that does not come to its end.
pub(super) const UNFINISHED: &str =
    "class Box { v: int; }\nshared { x: Box; }\nthread a { check shared.x == null; }\nthread b { var n: Box = null; n.v = 1; }";

pub(super) const UNFINISHED_REPORT: &str =
    "check a 1 3:12 holds\nthread a finished\nthread b fault null 4:32\nchecks 1 holds 1 fails 0 other 0\n";

/// Three objects.
pub(super) const THREE: &str =
    "class Box { v: int; }\nthread t {\n  var a: Box = new Box;\n  var b: Box = new Box;\n  var c: Box = new Box;\n}";

/// A check whose predicate calls itself as deep as may be, and one that goes deeper.
pub(super) const DOWN: &str =
    "pred down(k: int): bool = k <= 1 || down(k - 1);\nthread t {\n  check down(4096);\n  check down(4097);\n}";

pub(super) const DOWN_REPORT: &str =
    "check t 1 3:3 holds\ncheck t 2 4:3 deep\nthread t finished\nchecks 2 holds 1 fails 0 other 1\n";

pub(super) const NO_CHECKS: &str = "checks 0 holds 0 fails 0 other 0\n";

/// What `gen 1` writes.
pub(super) const SOURCE_OF_ONE: &str = "class Node { val: int; next: Node; }
class Tree { key: int; left: Tree; right: Tree; }
class Root { top: Tree; }
shared { list: Node; }
pred sorted(n: Node): bool =
  n == null || n.next == null || n.val <= n.next.val && sorted(n.next);
pred ordered(n: Tree, lo: int, hi: int): bool =
  n == null || lo <= n.key && n.key <= hi
  && ordered(n.left, lo, n.key) && ordered(n.right, n.key, hi);
proc push(v: int) {
  var n: Node = new Node;
  n.val = v;
  n.next = shared.list;
  shared.list = n;
}
proc insert(r: Root, k: int) {
  var n: Tree = new Tree;
  n.key = k;
  var at: Tree = r.top;
  if (at == null) {
    r.top = n;
  } else {
    var going: bool = true;
    while (going) {
      if (k < at.key) {
        var l: Tree = at.left;
        if (l == null) { at.left = n; going = false; } else { at = l; }
      } else {
        var g: Tree = at.right;
        if (g == null) { at.right = n; going = false; } else { at = g; }
      }
    }
  }
}
thread lister {
  var i: int = 1;
  while (i <= 1) {
    push(1 - i);
    if (i % 16 == 0) { check sorted(shared.list); }
    i = i + 1;
  }
}
thread planter {
  var r: Root = new Root;
  var i: int = 1;
  var k: int = 0;
  while (i <= 1) {
    k = (k * 4005 + 1) % 65536;
    insert(r, k);
    if (i % 16 == 0) { check ordered(r.top, 0, 65535); }
    i = i + 1;
  }
}
";
