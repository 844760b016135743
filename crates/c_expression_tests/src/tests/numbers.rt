//! Each node has the number of its first token, and a link that of its operator.

use super::words::tokens_of;
use super::{DEPTH, Form, Reading, check};
use c_expression_read::{number, read_expression};
use c_grammar::Allowed;
use c_scope::Scope;
use c_tree::Expr;
use std::test::Fail;

const EXPRESSIONS: &str = "a => a@0
1 + 'x' - b => <@0 1@0 +@1 'x'@2 -@3 b@4 >
a , b , c => <@0 a@0 , b@2 , c@4 >
a = b += c => <@0 a@0 =@0 b@2 +=@2 c@4 >
a ? b : c ? d : e => <@0 a@0 ?@0 b@2 : c@4 ?@4 d@6 : e@8 >
( a ) [ 1 ] ( b , c ) . m -> n ++ -- => <@0 (@0 a@1 ) [@3 1@4 ] (@6 b@7 , c@9 ) .@11 m ->@13 n ++@15 --@16 >
- ! a => <@0 - <@1 ! a@2 > >
sizeof a * sizeof ( T ) => <@0 <@0 sizeof a@1 > *@2 <@3 sizeof {@5 T@5 d@6 _ } > >
( T * ) a => <@0 cast {@1 T@1 d@2 * _ } a@4 >
\"0\" \"1\" [ a ] => <@0 \"0\"@0 \"1\" [@2 a@3 ] >
a + b * c => <@0 a@0 +@1 <@2 b@2 *@3 c@4 > >";

const DECLARED: &str = "int a => {@0 int@0 d@1 a@1 }
const T * ( * f [ 2 ] ) ( int , char b ) => {@0 const@0 T@1 d@2 * (@3 d@4 * f@5 [@6 2@7 ] ) (@10 {@11 int@11 d@12 _ } , {@13 char@13 d@14 b@14 } ) }
struct s { int a , * b ; } c => {@0 struct@0 s { m@3 int@3 d@4 a@4 , d@6 * b@7 ; } d@10 c@10 }
enum { a , b = 1 } c => {@0 enum@0 { a@2 , b@4 = 1@6 } d@8 c@8 }
CFI_CDESC_T ( 3 ) a => {@0 CFI_CDESC_T@0 3 d@4 a@4 }
enum e * a => {@0 enum@0 e d@2 * a@3 }
struct s a [ ] => {@0 struct@0 s d@2 a@2 [@3 ] }";

#[test]
fn nodes_of_expressions_have_their_numbers(rt: HostRuntime) -> Result<(), Fail> {
    check(
        &rt,
        rt.alloc(),
        Reading::numbered(Form::Expression),
        EXPRESSIONS,
    )
}

#[test]
fn nodes_of_declarations_have_their_numbers(rt: HostRuntime) -> Result<(), Fail> {
    check(
        &rt,
        rt.alloc(),
        Reading::numbered(Form::Typed(Allowed::Named)),
        DECLARED,
    )
}

#[test]
fn numbers_count_from_the_end_of_the_unit(rt: HostRuntime) -> Result<(), Fail> {
    let alloc = rt.alloc();
    let tokens = tokens_of(alloc, "a + b ;")?;
    let mut scope = Scope::new(alloc);
    assert_eq!(rt; number(104, &tokens), 100);
    match read_expression(alloc, 104, DEPTH, &mut scope, &tokens) {
        Ok((Expr::Chain { at, .. }, rest)) => {
            assert_eq!(rt; at, 100);
            assert_eq!(rt; number(104, rest), 103);
        }
        _ => assert!(rt; false),
    }
    Ok(())
}
