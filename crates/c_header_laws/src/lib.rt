//! Laws of the texts of built-in headers: what they declare.
#![tactic(auto)]

ghost use Rattle.c_header_laws.specs.Headers.{StddefDeclares, StdboolDeclares, StdlibDeclares, StringDeclares, StdioDeclares, StdintDeclares, LimitsDeclares, FortranBindingDeclares};

/// The texts of the built-in headers break no rule of the preprocessor where each is read first, and declare their names, define their macros with their
/// values, and do nothing else, but for the macro that guards each (ISO/IEC 9899:2011, 7 and 5.2.4.2.1; ISO/IEC 1539-1:2018, 18.5).
pub fn headers_declare_their_names()
    ensures stddef { StddefDeclares }
    ensures stdbool { StdboolDeclares }
    ensures stdlib { StdlibDeclares }
    ensures string { StringDeclares }
    ensures stdio { StdioDeclares }
    ensures stdint { StdintDeclares }
    ensures limits { LimitsDeclares }
    ensures fortran_binding { FortranBindingDeclares }
{}
