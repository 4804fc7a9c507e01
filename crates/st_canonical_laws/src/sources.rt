//! Sources and their canonical texts.

/// The tokens stand together, and both blocks are empty.
pub const IF_ELSE: &[u8] = b"thread t{if(true){}else{}}";

pub const IF_ELSE_LINES: &[u8] = b"thread t {
  if ( true ) {
  }
  else {
  }
}
";

/// A shared block with no variable is not written.
pub const NO_SHARED: &[u8] = b"class A{}shared{}thread t{}";

pub const NO_SHARED_LINES: &[u8] = b"class A {
}
thread t {
}
";

/// Each rule of the grammar, each operator, and a number with leading zeros.
pub const EVERY_RULE: &[u8] = b"class A { a: int; b: bool; c: A; } class B { }
shared { x: int; y: A; }
pred p(): bool = true;
pred q(a: int, b: A): int = a >= 0 ? b.c.a : -a;
proc r() { }
proc s(a: int, b: A) { s(a, b); r(); }
thread t {
  var n: A = new A; var i: int = 007; n.a = i + 1 * 2 / (3 - 4) % 5; n.c = null; n.c.c = n;
  i = 1; n = new A; shared.x = 2; shared.y.a = shared.x;
  n.b = cas(n.a, i, i - 1); n.b = cas(shared.y, null, n);
  if (!n.b && true || false) { i = 0; } else { if (i != 1) { } }
  while (i <= 3) { i = i + 1; }
  check p() && q(i, n) == 4 || i < 5 || i > 6;
}";

pub const EVERY_RULE_LINES: &[u8] = b"class A {
  a : int ;
  b : bool ;
  c : A ;
}
class B {
}
shared {
  x : int ;
  y : A ;
}
pred p ( ) : bool = true ;
pred q ( a : int , b : A ) : int = a >= 0 ? b . c . a : - a ;
proc r ( ) {
}
proc s ( a : int , b : A ) {
  s ( a , b ) ;
  r ( ) ;
}
thread t {
  var n : A = new A ;
  var i : int = 7 ;
  n . a = i + 1 * 2 / ( 3 - 4 ) % 5 ;
  n . c = null ;
  n . c . c = n ;
  i = 1 ;
  n = new A ;
  shared . x = 2 ;
  shared . y . a = shared . x ;
  n . b = cas ( n . a , i , i - 1 ) ;
  n . b = cas ( shared . y , null , n ) ;
  if ( ! n . b && true || false ) {
    i = 0 ;
  }
  else {
    if ( i != 1 ) {
    }
  }
  while ( i <= 3 ) {
    i = i + 1 ;
  }
  check p ( ) && q ( i , n ) == 4 || i < 5 || i > 6 ;
}
";

/// Lists that are sorted and trees that are ordered, each checked at every sixteenth turn.
pub const LISTS_AND_TREES: &[u8] = b"class Node { val: int; next: Node; }
class Tree { key: int; left: Tree; right: Tree; }
class Root { top: Tree; }
shared { list: Node; }
pred sorted(n: Node): bool =
  n == null || n.next == null || n.val <= n.next.val && sorted(n.next);
pred ordered(n: Tree, lo: int, hi: int): bool =
  n == null || lo <= n.key && n.key <= hi
  && ordered(n.left, lo, n.key) && ordered(n.right, n.key, hi);
proc push(v: int) {
  var n: Node = new Node;
  n.val = v;
  n.next = shared.list;
  shared.list = n;
}
proc insert(r: Root, k: int) {
  var n: Tree = new Tree;
  n.key = k;
  var at: Tree = r.top;
  if (at == null) {
    r.top = n;
  } else {
    var going: bool = true;
    while (going) {
      if (k < at.key) {
        var l: Tree = at.left;
        if (l == null) { at.left = n; going = false; } else { at = l; }
      } else {
        var g: Tree = at.right;
        if (g == null) { at.right = n; going = false; } else { at = g; }
      }
    }
  }
}
thread lister {
  var i: int = 1;
  while (i <= 32) {
    push(32 - i);
    if (i % 16 == 0) { check sorted(shared.list); }
    i = i + 1;
  }
}
thread planter {
  var r: Root = new Root;
  var i: int = 1;
  var k: int = 0;
  while (i <= 32) {
    k = (k * 4005 + 1) % 65536;
    insert(r, k);
    if (i % 16 == 0) { check ordered(r.top, 0, 65535); }
    i = i + 1;
  }
}
";

pub const LISTS_AND_TREES_LINES: &[u8] = b"class Node {
  val : int ;
  next : Node ;
}
class Tree {
  key : int ;
  left : Tree ;
  right : Tree ;
}
class Root {
  top : Tree ;
}
shared {
  list : Node ;
}
pred sorted ( n : Node ) : bool = n == null || n . next == null || n . val <= n . next . val && sorted ( n . next ) ;
pred ordered ( n : Tree , lo : int , hi : int ) : bool = n == null || lo <= n . key && n . key <= hi && ordered ( n . left , lo , n . key ) && ordered ( n . right , n . key , hi ) ;
proc push ( v : int ) {
  var n : Node = new Node ;
  n . val = v ;
  n . next = shared . list ;
  shared . list = n ;
}
proc insert ( r : Root , k : int ) {
  var n : Tree = new Tree ;
  n . key = k ;
  var at : Tree = r . top ;
  if ( at == null ) {
    r . top = n ;
  }
  else {
    var going : bool = true ;
    while ( going ) {
      if ( k < at . key ) {
        var l : Tree = at . left ;
        if ( l == null ) {
          at . left = n ;
          going = false ;
        }
        else {
          at = l ;
        }
      }
      else {
        var g : Tree = at . right ;
        if ( g == null ) {
          at . right = n ;
          going = false ;
        }
        else {
          at = g ;
        }
      }
    }
  }
}
thread lister {
  var i : int = 1 ;
  while ( i <= 32 ) {
    push ( 32 - i ) ;
    if ( i % 16 == 0 ) {
      check sorted ( shared . list ) ;
    }
    i = i + 1 ;
  }
}
thread planter {
  var r : Root = new Root ;
  var i : int = 1 ;
  var k : int = 0 ;
  while ( i <= 32 ) {
    k = ( k * 4005 + 1 ) % 65536 ;
    insert ( r , k ) ;
    if ( i % 16 == 0 ) {
      check ordered ( r . top , 0 , 65535 ) ;
    }
    i = i + 1 ;
  }
}
";
